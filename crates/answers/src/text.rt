// The numbers of a line, one behind the other. Assumes that there is room for them, as each `requires` says.
ghost use Rattle.std.specs.Prelude.{◌≡◌, ◌∷◌, ◌++◌, ◌+◌, ◌≤◌, length};
ghost use Rattle.answers.specs.Ascii.{space};
ghost use Rattle.answers.specs.Answer.{decimal, line};
ghost use Rattle.answers.specs.Promises.{text_room};
ghost use Rattle.verdicts.specs.Answer.{said};

use crate::TEXT_ROOM;
use arrayvec::ArrayString;
use itoa::Buffer;
use verdicts::Answer;

// Room for a line, in the value itself: there is no heap.
pub(crate) type Text = ArrayString<TEXT_ROOM>;

// Piece by piece, as `write!` promises nothing about when it succeeds.
#[tactic(auto, using(crate::proofs::TextLaws::decimal_printed))]
fn push_decimal(text: &mut Text, n: u32)
    requires { length text.old.bytes + 10 ≤ text_room }
    ensures text { text.new.bytes ≡ text.old.bytes ++ decimal n }
    ensures within { length text.new.bytes ≤ length text.old.bytes + 10 }
{
    let mut digits = Buffer::new();
    text.push_str(digits.format(n));
}

fn push_spaced(text: &mut Text, n: u32)
    requires { length text.old.bytes + 11 ≤ text_room }
    ensures text { text.new.bytes ≡ text.old.bytes ++ space ∷ decimal n }
    ensures within { length text.new.bytes ≤ length text.old.bytes + 11 }
{
    text.push_str(" ");
    push_decimal(text, n);
}

// It leaves room for what stands before the pairs.
pub(crate) fn line(a: Answer) -> Text
    ensures text { result.bytes ≡ line (said a) }
    ensures within { length result.bytes ≤ 32 }
{
    let mut text = Text::new();
    push_decimal(&mut text, a.code);
    push_spaced(&mut text, a.number);
    push_spaced(&mut text, a.running);
    text
}
