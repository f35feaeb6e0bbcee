// Where each field starts in the image, in the order of the struct, and where the image ends.
use boxes::BOX_NODES;
use queues::QUEUE_NODES;
use sizes::{BUFFERS, MAILBOXES, PROCESSES, SEMAPHORES};

pub(crate) const RUNNING: usize = 0;

pub(crate) const CLASS: usize = RUNNING + 1;

pub(crate) const TICKS: usize = CLASS + PROCESSES;

pub(crate) const NEXT: usize = TICKS + PROCESSES;

pub(crate) const PREV: usize = NEXT + QUEUE_NODES;

pub(crate) const READY: usize = PREV + QUEUE_NODES;

pub(crate) const UNUSED: usize = READY + 4;

pub(crate) const BOX_NEXT: usize = UNUSED + 4;

pub(crate) const BOX_PREV: usize = BOX_NEXT + BOX_NODES;

pub(crate) const HAND: usize = BOX_PREV + BOX_NODES;

pub(crate) const FULL: usize = HAND + PROCESSES;

pub(crate) const LENGTH: usize = FULL + 4;

pub(crate) const FREE: usize = LENGTH + 2 * BUFFERS;

pub(crate) const CHAIN: usize = FREE + 4;

pub(crate) const COUNT: usize = CHAIN + BUFFERS;

pub(crate) const BIRTHS: usize = COUNT + 2 * SEMAPHORES;

pub(crate) const SLICE: usize = BIRTHS + PROCESSES;

pub(crate) const CAPACITY: usize = SLICE + 1;

pub(crate) const MODE: usize = CAPACITY + MAILBOXES;

pub const SIZE: usize = MODE + MAILBOXES;
