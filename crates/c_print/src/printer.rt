// Writing piece by piece, and nothing after the first fault.

ghost use Rattle.std.specs.Prelude.{◌≡◌, ◌<◌, length, decimal};
ghost use Rattle.std.specs.Fmt.{signed_decimal};
ghost use Rattle.c_print.specs.Goes.{Goes};
ghost use Rattle.c_ast.specs.Spelling.{name_text};

use c_ast::Name;
use itoa::Buffer;
use sci_io::Sink;

/// Writes to a sink until it fails.
#[derive(Drop)]
pub struct Printer<'a, S: Sink> {
    pub out: &'a mut S,
    pub failed: bool,
}

impl<'a, S: Sink> Printer<'a, S> {
    pub fn text(&mut self, piece: &[u8])
        requires { 0 < length piece.now }
        ensures { Goes S.state self.old.out self.old.failed self.new.out self.new.failed piece.now }
    {
        if !self.failed {
            self.failed = self.out.put(piece).is_err();
        }
    }

    pub fn number(&mut self, n: i64)
        ensures { Goes S.state self.old.out self.old.failed self.new.out self.new.failed (signed_decimal n) }
    {
        let mut buffer = Buffer::new();
        self.text(buffer.format(n).as_bytes());
    }

    pub fn counted(&mut self, n: u32)
        ensures { Goes S.state self.old.out self.old.failed self.new.out self.new.failed (decimal n) }
    {
        let mut buffer = Buffer::new();
        self.text(buffer.format(n).as_bytes());
    }

    pub fn name(&mut self, x: Name)
        ensures { Goes S.state self.old.out self.old.failed self.new.out self.new.failed (name_text x) }
    {
        self.text(&[x.letter]);
        self.counted(x.number);
    }
}
