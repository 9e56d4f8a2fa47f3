// What a line holds, and a call for each kind of line.
ghost use Rattle.std.specs.Prelude.{◌≡◌, ◌<◌, [], ◌∷◌, length};
ghost use Rattle.faults.specs.Faults.{intake_cause, intake_layer};
ghost use Rattle.listing.specs.Bytes.{line_bytes};
ghost use Rattle.listing.specs.Digits.{hexadecimal};
ghost use Rattle.listing.specs.Lines.{line_of, booked_line, lapsed_group_line, new_group_line, word_of_layer, refused_line, size_line, cut_line};

use crate::line::Line;
use faults::cause::Cause;
use faults::intake::{IntakeFault, Layer};
use groups::group::Group;

impl Line {
    // The bytes to print, the end of the line with them.
    pub fn bytes(&self) -> &[u8]
        ensures { result.now ≡ line_bytes self.now }
    {
        self.text.as_str().as_bytes()
    }
}

// A booked file: how many groups are new, and how many lapsed.
pub fn booked(new: usize, lapsed: usize) -> Line
    ensures { line_bytes result ≡ booked_line new lapsed }
{
    let mut line = Line::begin("ok");
    line.end_numbers(new, lapsed);
    line
}

// A group's keys and doors under a sign.
fn signed(sign: &str, group: Group) -> Line
    requires { length sign.now ≡ 1 }
    ensures { line_bytes result ≡ line_of sign.now (hexadecimal group.keys ∷ hexadecimal group.doors ∷ []) }
{
    let mut line = Line::begin(sign);
    line.add_mask(group.keys);
    line.add_mask(group.doors);
    line.end();
    line
}

pub fn lapsed_group(group: Group) -> Line
    ensures { line_bytes result ≡ lapsed_group_line group }
{
    signed("-", group)
}

pub fn new_group(group: Group) -> Line
    ensures { line_bytes result ≡ new_group_line group }
{
    signed("+", group)
}

// A layer's word, and no `Display` of layers, since a formatter may fail and a line may not.
fn layer_word(layer: Layer) -> &'static str
    ensures { result.now ≡ word_of_layer layer }
{
    match layer {
        Layer::File => "file",
        Layer::Draft => "draft",
        Layer::Suite => "suite",
    }
}

// A refused file: the layer, and the cause in the table of causes.
pub fn refused(fault: &IntakeFault) -> Line
    ensures { line_bytes result ≡ refused_line (intake_layer fault.now) (intake_cause fault.now) }
{
    let Cause { number, value } = fault.cause();
    let mut line = Line::begin("no");
    line.add_word(layer_word(fault.layer()));
    line.end_numbers(usize::from(number), value.unwrap_or(0));
    line
}

// A line of one word.
fn word_alone(word: &str) -> Line
    requires { length word.now < 48 }
    ensures { line_bytes result ≡ line_of word.now [] }
{
    let mut line = Line::begin(word);
    line.end();
    line
}

// A size is missing or bad.
pub fn bad_size() -> Line
    ensures { line_bytes result ≡ size_line }
{
    word_alone("size")
}

// The input ends inside a length or a file, or a length is too large.
pub fn cut() -> Line
    ensures { line_bytes result ≡ cut_line }
{
    word_alone("cut")
}
