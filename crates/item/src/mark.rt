// A date mark: which day of the calendar is set apart, why, and on which sheet its box stands.
ghost use Rattle.std.specs.Prelude.{◌≡◌, true};
ghost use Rattle.item.specs.Ranges.{month_fine, day_fine, sheet_fine};

pub mod methods;

#[derive(Clone, Copy, PartialEq, Eq, Debug)]
pub enum DayKind {
    Birthday,
    WeddingDay,
    Remembrance,
}

#[derive(Clone, Copy, PartialEq, Eq, Debug)]
pub struct DateMark {
    month: u8,
    day: u8,
    kind: DayKind,
    sheet: u16,
    ghost month_fine: { month_fine month ≡ true },
    ghost day_fine: { day_fine month day ≡ true },
    ghost sheet_fine: { sheet_fine sheet ≡ true },
}
