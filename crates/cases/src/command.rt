// What is asked in a line: its first word, and the numbers behind it.
ghost use Rattle.std.specs.Prelude.{◌≤◌};

use crate::text::Text;
use elements::Form;

// A command with its numbers; a case's bytes stand behind it.
#[derive(Clone, Copy)]
pub enum Command {
    // the shortest length field of a number
    Length(usize),
    // an element, a run of sealed elements, CIAInfo's rest
    Header,
    Sealed,
    Rest,
    // an element of a form and tag
    Element(Form, u8),
    // the same of a form of numbers, which is written back into as many bytes
    Number(Form, u8),
    // named bits, written back into so much room
    Room(usize),
    // a dump through its book and back, and its book's links
    Back,
    Links,
    // a dump or a book, with room for so many bytes; a book, with room for so many numbers
    Read(usize),
    Write(usize),
    List(usize),
    // why a row of a dump's or a book's list is as it is
    Why(usize),
    WhyBook(usize),
    // a dump's book with every so many bytes one changed
    Spread(usize),
    // a field of a dump's book or a book, by its object and kind, both in hex
    Field(u32, u32),
    FieldBook(u32, u32),
    Unknown,
}

impl Command {
    // The command at the start of a line, unless a number is missing or too large.
    pub fn parse(line: &mut Text) -> Option<Command> {
        Some(match line.word() {
            b"length" => Command::Length(line.last()?),
            b"header" => Command::Header,
            b"sealed" => Command::Sealed,
            b"rest" => Command::Rest,
            b"octets" => Command::Element(Form::Octets, 0x04),
            b"null" => Command::Element(Form::Null, 0x05),
            b"text" => Command::Element(Form::Text, 0x0c),
            b"time" => Command::Element(Form::Time, 0x18),
            b"boolean" => Command::Number(Form::Boolean, 0x01),
            b"integer" => Command::Number(Form::Integer, 0x02),
            b"enumerated" => Command::Number(Form::Integer, 0x0a),
            b"bits" => Command::Number(Form::Bits, 0x03),
            b"room" => Command::Room(line.size()?),
            b"back" => Command::Back,
            b"links" => Command::Links,
            b"read" => Command::Read(line.size()?),
            b"write" => Command::Write(line.size()?),
            b"list" => Command::List(line.size()?),
            b"why" => Command::Why(line.size()?),
            b"whybook" => Command::WhyBook(line.size()?),
            b"spread" => Command::Spread(line.size()?),
            b"field" => Command::Field(line.key()?, line.key()?),
            b"fieldbook" => Command::FieldBook(line.key()?, line.key()?),
            _ => Command::Unknown,
        })
    }

    // How many bytes a case may have.
    pub fn most_bytes(self) -> usize
        ensures { result ≤ 139999 }
    {
        match self {
            Command::Room(_) => 15,
            Command::Read(_)
            | Command::Write(_)
            | Command::List(_)
            | Command::Why(_)
            | Command::WhyBook(_)
            | Command::Spread(_)
            | Command::Field(_, _)
            | Command::FieldBook(_, _) => 139999,
            _ => 69999,
        }
    }
}
