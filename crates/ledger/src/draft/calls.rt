// How a draft is made.
ghost use Rattle.std.specs.Prelude.{◌≡◌, [], IfOk, IfErr, is_ok, if◌then◌else◌};
ghost use Rattle.rules.specs.Grounds.{Setting, kept, with_line};
ghost use Rattle.ledger.specs.Places.{Meets, Between};
ghost use Rattle.ledger.specs.Drafted.{drafted};
ghost use Rattle.ledger.specs.Answers.{put_answer};

use crate::draft::Draft;
use crate::near::is_near;
use crate::unheld::Unheld;
use arrayvec::ArrayVec;
use joining::Joining;
use rules::Line;

// Of two lines with equal row and level, the one whose constant isn't worse.
fn kept<J: Joining>(line: Line, here: Line) -> Line
    ensures { (S : Setting) → S.joining line.row ≡ J.Joining.rule → result ≡ kept S line here }
{
    if J::is_worse(line.constant, here.constant) {
        here
    } else {
        line
    }
}

impl Draft {
    // A draft with no line.
    pub fn empty() -> Draft
        ensures { drafted result ≡ [] }
    {
        Draft {
            lines: ArrayVec::new(),
        }
    }

    // Drops all lines.
    pub fn clear(&mut self)
        ensures { drafted self.new ≡ [] }
    {
        self.lines.clear();
    }

    // The lines.
    pub fn lines(&self) -> &[Line]
        ensures { result.now ≡ drafted self.now }
    {
        &self.lines
    }

    // Where the line with the row and level of another stands, or where the other goes.
    fn place_of(&self, line: Line) -> Result<usize, usize>
        ensures found { IfOk result (Meets (drafted self.now) line) }
        ensures absent { IfErr result (Between (drafted self.now) line) }
    {
        self.lines
            .binary_search_by_key(&(line.row, line.level), |here| (here.row, here.level))
    }

    // Adds a line of a row that has the joining: of two with equal row and level, the one whose constant isn't worse remains.
    // Nothing is altered where the line is none that the tables hold.
    pub fn put<J: Joining>(&mut self, line: Line) -> Result<(), Unheld>
        ensures told { result ≡ put_answer line }
        ensures lines { (S : Setting) → S.joining line.row ≡ J.Joining.rule → drafted self.new ≡ (if is_ok result then with_line S line (drafted self.old) else drafted self.old) }
    {
        if !is_near(line) {
            return Err(Unheld::FarLine);
        }
        match self.place_of(line) {
            Ok(at) => self.lines[at] = kept::<J>(line, self.lines[at]),
            Err(at) => self.lines.insert(at, line),
        }
        Ok(())
    }
}
