// The amounts of a row lie between two numbers.
use crate::draws::Draw;
use catalogue::Rung;
use rules::MOST_ROWS;

#[derive(Clone, Copy)]
pub(crate) struct Span {
    least: i32,
    greatest: i32,
}

impl Span {
    fn of(least: i32, greatest: i32) -> Span {
        Span { least, greatest }
    }

    // A narrow span, in which many choices come to the same, or a wide one, up to the bounds of a job.
    fn draw(draw: &mut Draw) -> Span {
        match draw.below(6) {
            0 => Span::of(0, 3),
            1 => Span::of(-3, 3),
            2 => Span::of(0, 100),
            3 => Span::of(-200, 20),
            4 => Span::of(-5_000, 5_000),
            _ => Span::of(-1_000_000, 1_000_000),
        }
    }

    // An amount of the row.
    pub(crate) fn amount(self, draw: &mut Draw) -> i32 {
        draw.between(self.least, self.greatest)
    }

    // A rung of which the first and the last of so many amounts lie within.
    pub(crate) fn rung(self, draw: &mut Draw, count: u8) -> Rung {
        let base = self.amount(draw);
        let rise = self.amount(draw).saturating_sub(base);
        let steps = i32::from(count).saturating_sub(1);
        let step = rise.checked_div(steps).unwrap_or(rise);
        Rung { base, step }
    }
}

// The spans of all rows.
pub(crate) fn draw_spans(draw: &mut Draw) -> [Span; MOST_ROWS] {
    let mut spans = [Span::draw(draw); MOST_ROWS];
    for span in spans.iter_mut() {
        *span = Span::draw(draw);
    }
    spans
}
