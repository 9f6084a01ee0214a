// The text of a verdict.
ghost use Rattle.std.specs.Prelude.{◌≡◌, ◌++◌, Some, codes, decimal, flat_map, IfSome};
ghost use Rattle.std.specs.Option.{option_map};
ghost use Rattle.rules.specs.declared.sheets.Sheet.{Sheet};
ghost use Rattle.rules.specs.Catalogues.{Meaning};
ghost use Rattle.rules.specs.Choices.{price};
ghost use Rattle.chooser.specs.Verdicts.{PricesRight, seen_in, told_of};
ghost use Rattle.report.specs.Writing.{Puts};
ghost use Rattle.report.specs.Reports.{choice_text, closing_line, seen_text, told_ground, told_text};

use crate::page::Page;
use chooser::{Choice, ClosingGround, Seen, Told};
use rules::ClosingLine;

impl Page {
    // Writes a verdict: the line of what is said with the steps and the learned grounds held, and then the lines of the
    // closing ground.
    pub(crate) fn put_seen(&mut self, seen: &Seen)
        ensures { (m : Meaning) (s : Sheet) → PricesRight m s seen.now.says → Puts self.old (seen_text m s (seen_in seen.now)) self.new }
    {
        self.put_told(&seen.says);
        self.put_number(" STEPS ", seen.steps);
        self.put_number(" GROUNDS ", seen.held);
        self.put("\n");
        self.put_told_ground(&seen.says);
    }

    // Writes the word for what is said, and the choice that is told.
    fn put_told(&mut self, told: &Told)
        ensures { (m : Meaning) (s : Sheet) → PricesRight m s told.now → Puts self.old (told_text m s (told_of told.now)) self.new }
    {
        match told {
            Told::Least(choice, _) => {
                self.put("LEAST");
                self.put_choice(choice);
            }
            Told::Nothing(_) => self.put("NONE"),
            Told::Full(best) => {
                self.put("FULL");
                self.put_best(best);
            }
            Told::Unfinished(best) => {
                self.put("UNFINISHED");
                self.put_best(best);
            }
        }
    }

    // Writes the best choice so far, and a dash where there is none.
    fn put_best(&mut self, best: &Option<Choice>)
        ensures { (m : Meaning) (s : Sheet) → IfSome best.now (λ c. c.price ≡ price m s c.versions.items) → Puts self.old (choice_text m s (option_map (λ c. c.versions.items) best.now)) self.new }
    {
        match best {
            Some(choice) => self.put_choice(choice),
            None => self.put(" -"),
        }
    }

    // Writes the price of a choice, and its version of each place.
    fn put_choice(&mut self, choice: &Choice)
        ensures { (m : Meaning) (s : Sheet) → choice.now.price ≡ price m s choice.now.versions.items → Puts self.old (choice_text m s (Some choice.now.versions.items)) self.new }
    {
        self.put_number(" ", choice.price);
        self.put_versions(choice.versions.as_slice());
    }

    // Writes versions.
    fn put_versions(&mut self, versions: &[u8])
        ensures { Puts self.old (flat_map (λ v. codes " " ++ decimal v) versions.now) self.new }
    {
        for version in versions {
            self.put_number(" ", *version);
        }
    }

    // Writes the closing ground that is told, if one is.
    fn put_told_ground(&mut self, told: &Told)
        ensures { Puts self.old (flat_map closing_line (told_ground (told_of told.now))) self.new }
    {
        match told {
            Told::Least(_, ground) | Told::Nothing(ground) => self.put_ground(ground),
            Told::Full(_) | Told::Unfinished(_) => {}
        }
    }

    // Writes the lines of a closing ground.
    fn put_ground(&mut self, ground: &ClosingGround)
        ensures { Puts self.old (flat_map closing_line ground.now.lines.items) self.new }
    {
        for line in ground.lines.as_slice() {
            self.put_closing_line(line);
        }
    }

    // Writes a line of a closing ground.
    fn put_closing_line(&mut self, line: &ClosingLine)
        ensures { Puts self.old (closing_line line.now) self.new }
    {
        self.put_number("BY ", line.row);
        self.put_number(" ", line.constant);
        self.put("\n");
    }
}
