// A line of a job, parted by its equals sign and its commas.
ghost use Rattle.std.specs.Prelude.{◌≡◌};
ghost use Rattle.std.specs.Option.{option_map};
ghost use Rattle.job.specs.Lines.{line_of, four_of};
ghost use Rattle.job.specs.LineParts.{line_parts, four_parts};

use crate::keys;
use crate::text::cut;

#[derive(Clone, Copy)]
pub enum Line<'a> {
    Keyed {
        key: &'a [u8],
        value: &'a [u8],
    },
    Run {
        count: &'a [u8],
        demand: &'a [u8],
    },
    Call {
        date: &'a [u8],
        kind: &'a [u8],
        start: &'a [u8],
        hours: &'a [u8],
    },
    // What is not of the form is a case, so that `read` gives a line for every text and cannot fail.
    Malformed(&'a [u8]),
}

// Four parts of a value, in a struct and not in an array, since the definitions speak of each by its name.
#[derive(Clone, Copy)]
pub struct Four<'a> {
    pub first: &'a [u8],
    pub second: &'a [u8],
    pub third: &'a [u8],
    pub fourth: &'a [u8],
}

impl<'a> Four<'a> {
    // What stands before, between and behind the first three commas.
    pub fn read(value: &'a [u8]) -> Option<Four<'a>>
        ensures { option_map four_parts result ≡ four_of value.now }
    {
        let (first, more) = cut(value, b',')?;
        let (second, rest) = cut(more, b',')?;
        let (third, fourth) = cut(rest, b',')?;
        Some(Four {
            first,
            second,
            third,
            fourth,
        })
    }
}

impl<'a> Line<'a> {
    // A line's bytes, without its line feed, as its parts.
    pub fn read(bytes: &'a [u8]) -> Line<'a>
        ensures { line_parts result ≡ line_of bytes.now }
    {
        let Some((key, value)) = cut(bytes, b'=') else {
            return Line::Malformed(bytes);
        };
        match key {
            keys::RUN => match cut(value, b',') {
                Some((count, demand)) => Line::Run { count, demand },
                None => Line::Malformed(bytes),
            },
            keys::CALL => match Four::read(value) {
                Some(four) => Line::Call {
                    date: four.first,
                    kind: four.second,
                    start: four.third,
                    hours: four.fourth,
                },
                None => Line::Malformed(bytes),
            },
            _ => Line::Keyed { key, value },
        }
    }
}
