// How a ledger is filled and cleared.
ghost use Rattle.std.specs.Prelude.{◌≡◌, ◌<◌, List, [], ◌∷◌, ◌++◌, length, is_ok, if◌then◌else◌};
ghost use Rattle.rules.specs.Bounds.{most_grounds, most_lines};
ghost use Rattle.rules.specs.Grounds.{Ground};
ghost use Rattle.rules.specs.Search.{line_count};
ghost use Rattle.ledger.specs.Lines.{Near};
ghost use Rattle.ledger.specs.Model.{held};
ghost use Rattle.ledger.specs.Answers.{push_answer};

use crate::near::are_near;
use crate::records::GroundRecord;
use crate::table::Ledger;
use crate::unheld::Unheld;
use arrayvec::ArrayVec;
use rules::{Line, MOST_PLACES};

impl Ledger {
    // A ledger with no ground.
    pub fn empty() -> Ledger
        ensures { held result ≡ [] }
    {
        Ledger {
            grounds: ArrayVec::new(),
            lines: ArrayVec::new(),
        }
    }

    // Drops all grounds.
    pub fn clear(&mut self)
        ensures { held self.new ≡ [] }
    {
        self.grounds.clear();
        self.lines.clear();
    }

    // Begins a ground that has no line yet.
    fn open(&mut self)
        requires { length (held self.old) < most_grounds }
        ensures { held self.new ≡ held self.old ++ [] ∷ [] }
    {
        let at = self.lines.len();
        self.grounds.push(GroundRecord {
            start: at,
            end: at,
            lowest: MOST_PLACES as u8,
        });
    }

    // Writes one line, behind those of the newest ground, which is longer by it: so what a ledger keeps holds between the lines too.
    fn put_line(&mut self, line: Line)
        requires open { 0 < length (held self.old) }
        requires room { line_count (held self.old) < most_lines }
        requires near { Near line }
        ensures { (older : List Ground) (newest : Ground) → held self.old ≡ older ++ newest ∷ [] → held self.new ≡ older ++ (newest ++ line ∷ []) ∷ [] }
    {
        let newest = self.grounds.len() - 1;
        let record = self.grounds[newest];
        self.lines.push(line);
        self.grounds[newest] = GroundRecord {
            start: record.start,
            end: self.lines.len(),
            lowest: record.lowest.min(line.level),
        };
    }

    // Adds a ground behind the others; nothing is altered where there is no space for it, or a line is none that the tables hold.
    pub fn push(&mut self, ground: &[Line]) -> Result<(), Unheld>
        ensures told { result ≡ push_answer (held self.old) ground.now }
        ensures held { held self.new ≡ (if is_ok result then held self.old ++ ground.now ∷ [] else held self.old) }
    {
        if !self.has_room(ground) {
            return Err(Unheld::NoSpace);
        }
        if !are_near(ground) {
            return Err(Unheld::FarLine);
        }
        self.open();
        for line in ground {
            self.put_line(*line);
        }
        Ok(())
    }
}
