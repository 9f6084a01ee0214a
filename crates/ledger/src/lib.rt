// Learned grounds in tables of fixed size: the ledger that holds them, and the draft of one as it is learned.
#![tactic(auto)]

mod draft;
mod near;
mod records;
mod table;
mod unheld;

pub use draft::Draft;
pub use table::Ledger;
pub use unheld::Unheld;

#[cfg(test)]
mod tests {
    use super::*;
    use joining::SumAtMost;
    use rules::{Line, MOST_GROUNDS};

    fn line(row: u8, level: u8, constant: i64) -> Line {
        Line {
            row,
            level,
            constant,
        }
    }

    #[test]
    fn a_draft_has_its_lines_in_order(rt: HostRuntime) {
        let mut draft = Draft::empty();
        for put in [line(1, 0, 5), line(0, 3, 2), line(0, 1, 7), line(0, 3, 4)] {
            assert_eq!(rt; draft.put::<SumAtMost>(put), Ok(()));
        }
        let held = [line(0, 1, 7), line(0, 3, 2), line(1, 0, 5)];
        assert_eq!(rt; draft.lines(), held.as_slice());
        assert_eq!(rt;
            draft.put::<SumAtMost>(line(0, 17, 0)),
            Err(Unheld::FarLine)
        );
        assert_eq!(rt; draft.lines(), held.as_slice());
    }

    #[test]
    fn a_ledger_is_filled(rt: HostRuntime) {
        let ground = [line(0, 0, 1), line(0, 1, 2), line(3, 0, 3), line(8, 16, 4)];
        let mut ledger = Ledger::empty();
        assert_eq!(rt; ledger.push(&[line(9, 0, 0)]), Err(Unheld::FarLine));
        for _ in 0..MOST_GROUNDS {
            assert_eq!(rt; ledger.push(&ground), Ok(()));
        }
        assert_eq!(rt; ledger.push(&[]), Err(Unheld::NoSpace));
        assert_eq!(rt; ledger.count(), MOST_GROUNDS);
        assert_eq!(rt; ledger.ground(MOST_GROUNDS - 1), ground.as_slice());
        assert_eq!(rt; ledger.ground(MOST_GROUNDS).len(), 0);
        ledger.clear();
        assert_eq!(rt; ledger.count(), 0);
        assert_eq!(rt; ledger.push(&ground), Ok(()));
    }
}
