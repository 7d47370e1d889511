// How the line is written.
ghost use Rattle.std.specs.Prelude.{◌≡◌, ◌+◌, ◌≤◌, ◌++◌, length};
ghost use Rattle.arrayvec.specs.ArrayString.{array_string_len};
ghost use Rattle.refusal.specs.Line.{text_of, layer_name_lem, labelled, refused_line};

use crate::layer::Layer;
use crate::line::Line;
use crate::load::LoadFault;
use arrayvec::ArrayString;
use itoa::{Buffer, Integer};

// A name and no `Display`: where there is room `push_str` cannot fail, and `write!` would answer a `Result`.
fn layer_name(layer: Layer) -> &'static str
    ensures name { result.now ≡ layer_name_lem layer }
    ensures size { length result.now ≤ 7 }
{
    match layer {
        Layer::Entry => "entry",
        Layer::Reader => "reader",
        Layer::Order => "order",
        Layer::Content => "content",
        Layer::Lists => "lists",
        Layer::Session => "session",
    }
}

// A number that is not there leaves its label out too.
fn push_labelled<I: Integer, const CAP: usize>(
    text: &mut ArrayString<CAP>,
    label: &str,
    number: Option<I>,
)
    requires { array_string_len text.old + length label.now + I.MAX_STR_LEN ≤ CAP }
    ensures text { text.new.bytes ≡ text.old.bytes ++ labelled I.text label.now number }
    ensures size { array_string_len text.new ≤ array_string_len text.old + length label.now + I.MAX_STR_LEN }
{
    if let Some(number) = number {
        text.push_str(label);
        text.push_str(Buffer::new().format(number));
    }
}

impl LoadFault {
    pub fn line(self) -> Line
        ensures { text_of result ≡ refused_line self }
    {
        let mut text = ArrayString::<96>::new();
        text.push_str("refused ");
        text.push_str(Buffer::new().format(self.number()));
        text.push_str(" ");
        text.push_str(layer_name(self.layer()));
        push_labelled(&mut text, " at ", self.place());
        push_labelled(&mut text, " after ", self.count());
        push_labelled(&mut text, " console ", self.console());
        push_labelled(&mut text, " round ", self.round());
        text.push_str("\n");
        let length = text.len();
        let mut bytes = [0; 96];
        bytes[..length].copy_from_slice(text.as_str().as_bytes());
        Line { bytes, length }
    }
}
