// The worked figures of document 01, section "Units".
use crate::figures::say;
use std::io;
use std::io::Write;
use units::{Fixed, Refusal};

fn gives(answer: Result<Fixed, Refusal>, raw: i64) -> bool {
    answer == Ok(Fixed::from_raw(raw))
}

fn refuses(answer: Result<Fixed, Refusal>) -> bool {
    answer == Err(Refusal::CoordinateOverflow)
}

fn inches(x: f64) -> Result<Fixed, Refusal> {
    units::inches_to_fixed(x)
}

fn capacity(side: i64, permille: u16, titles: i64, headings: i64) -> Result<Fixed, Refusal> {
    units::unscaled_capacity(
        Fixed::from_raw(side),
        permille,
        Fixed::from_raw(titles),
        Fixed::from_raw(headings),
    )
}

fn scaled(size: i64, permille: u16) -> Result<Fixed, Refusal> {
    units::scale_fixed(Fixed::from_raw(size), permille)
}

fn inches_figures<W: Write>(out: &mut W) -> io::Result<()> {
    say(out, "inches 1", gives(inches(1.0), 98304))?;
    say(out, "inches half a unit", gives(inches(1.0 / 196608.0), 1))?;
    say(
        out,
        "inches below half a unit",
        gives(inches(1.0 / 200000.0), 0),
    )?;
    say(out, "inches nan", refuses(inches(f64::NAN)))?;
    say(out, "inches infinity", refuses(inches(f64::INFINITY)))?;
    say(out, "inches -infinity", refuses(inches(f64::NEG_INFINITY)))?;
    say(out, "inches -0", gives(inches(-0.0), 0))?;
    say(out, "inches -1/4 unit", gives(inches(-1.0 / 393216.0), 0))?;
    say(out, "inches -1/2 unit", refuses(inches(-1.0 / 196608.0)))?;
    say(out, "inches -1", refuses(inches(-1.0)))?;
    say(
        out,
        "inches 2^63 units",
        gives(inches(93824992236885.33), i64::MAX),
    )?;
    say(
        out,
        "inches next below 2^63 units",
        gives(inches(93824992236885.31), 9223372036854773760),
    )?;
    say(
        out,
        "inches next above 2^63 units",
        refuses(inches(93824992236885.36)),
    )?;
    Ok(())
}

fn capacity_figures<W: Write>(out: &mut W) -> io::Result<()> {
    say(
        out,
        "capacity 600 333",
        gives(capacity(600, 333, 0, 0), 1801),
    )?;
    say(
        out,
        "capacity 10 1000 5 6",
        gives(capacity(10, 1000, 5, 6), 1),
    )?;
    say(
        out,
        "capacity 10 1000 5 3",
        gives(capacity(10, 1000, 5, 3), 2),
    )?;
    say(
        out,
        "capacity -600 333 -2000",
        gives(capacity(-600, 333, -2000, 0), 199),
    )?;
    say(out, "capacity 600 0", refuses(capacity(600, 0, 0, 0)))?;
    say(
        out,
        "capacity max 1000",
        gives(capacity(i64::MAX, 1000, 0, 0), i64::MAX),
    )?;
    say(
        out,
        "capacity max 999",
        refuses(capacity(i64::MAX, 999, 0, 0)),
    )?;
    say(
        out,
        "capacity min 1000",
        gives(capacity(i64::MIN, 1000, 0, 0), 1),
    )?;
    say(
        out,
        "capacity min 999",
        refuses(capacity(i64::MIN, 999, 0, 0)),
    )?;
    Ok(())
}

// An overflow in either subtraction gives 1.
fn overflow_figures<W: Write>(out: &mut W) -> io::Result<()> {
    say(
        out,
        "capacity max less -1",
        gives(capacity(i64::MAX, 1000, -1, 0), 1),
    )?;
    say(
        out,
        "capacity max less -1 less 9",
        gives(capacity(i64::MAX, 1000, -1, 9), 1),
    )?;
    say(
        out,
        "capacity max less 0 less -1",
        gives(capacity(i64::MAX, 1000, 0, -1), 1),
    )?;
    say(
        out,
        "capacity min less 1 less -9",
        gives(capacity(i64::MIN, 1000, 1, -9), 1),
    )?;
    Ok(())
}

fn scale_figures<W: Write>(out: &mut W) -> io::Result<()> {
    say(out, "scale 3 500", gives(scaled(3, 500), 2))?;
    say(out, "scale -3 500", gives(scaled(-3, 500), -2))?;
    say(out, "scale 1 499", gives(scaled(1, 499), 0))?;
    say(out, "scale -1 499", gives(scaled(-1, 499), 0))?;
    say(out, "scale max 0", gives(scaled(i64::MAX, 0), 0))?;
    say(
        out,
        "scale max 1000",
        gives(scaled(i64::MAX, 1000), i64::MAX),
    )?;
    say(out, "scale max 1001", refuses(scaled(i64::MAX, 1001)))?;
    say(
        out,
        "scale min 1000",
        gives(scaled(i64::MIN, 1000), i64::MIN),
    )?;
    say(out, "scale min 1001", refuses(scaled(i64::MIN, 1001)))?;
    Ok(())
}

pub(crate) fn all_figures<W: Write>(out: &mut W) -> io::Result<()> {
    inches_figures(out)?;
    capacity_figures(out)?;
    overflow_figures(out)?;
    scale_figures(out)?;
    Ok(())
}
