//! `&&` and `||`.

ghost use Rattle.std.specs.Prelude.{pos, ◌≤◌};
ghost use Rattle.tac_lower.specs.declared.draft.Ends.{Ends};
ghost use Rattle.tac_lower.specs.tools.Emits.{Emits};
ghost use Rattle.tac_lower.specs.Instrs as spec;
ghost use Rattle.tac_lower.specs.Values.{settled};

use crate::writer::{Stop, Writer};
use tac_ir::Instr;

impl Writer {
    /// Goes on behind, or where `a` is 0 past so many more.
    pub(crate) fn test(&mut self, line: u32, a: u32, past: u32) -> Result<u32, Stop>
        requires { past ≤ 65535 }
        ensures { (ends : Ends) → Emits (spec.test line a past) ends self.old self.new result }
    {
        let at = self.next.at;
        self.quiet(
            line,
            Instr::Test {
                a,
                yes: at + 1,
                no: at + 1 + past,
            },
        )
    }

    /// Goes past so many where `a` is not 0.
    pub(crate) fn test_past(&mut self, line: u32, a: u32, past: u32) -> Result<u32, Stop>
        requires { past ≤ 65535 }
        ensures { (ends : Ends) → Emits (spec.test_past line a past) ends self.old self.new result }
    {
        let at = self.next.at;
        self.quiet(
            line,
            Instr::Test {
                a,
                yes: at + 1 + past,
                no: at + 1,
            },
        )
    }

    pub(crate) fn skip(&mut self, line: u32, past: u32) -> Result<u32, Stop>
        requires { past ≤ 65535 }
        ensures { (ends : Ends) → Emits (spec.skip line past) ends self.old self.new result }
    {
        let target = self.next.at + 1 + past;
        self.quiet(line, Instr::Jump { target })
    }

    fn zero_again(&mut self, line: u32, to: u32) -> Result<u32, Stop>
        ensures { (ends : Ends) → Emits (spec.zero_again line to) ends self.old self.new result }
    {
        self.quiet(line, Instr::Const { to, k: 0 })?;
        Ok(to)
    }

    /// 1 where the second operand `y` is true, else 0, where those come too that were decided before it.
    pub(crate) fn settle(&mut self, line: u32, y: u32) -> Result<u32, Stop>
        ensures { (ends : Ends) → Emits (settled line y) ends self.old self.new result }
    {
        self.test(line, y, 2)?;
        let to = self.constant(line, 1)?;
        self.skip(line, 1)?;
        self.zero_again(line, to)
    }
}
