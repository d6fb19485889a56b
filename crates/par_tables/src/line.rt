use query_filter::{StrainTricks, TrickTable};
use std::str::Split;

// What a declarer takes in each strain.
#[derive(Clone, Copy)]
struct ByStrain {
    spades: u8,
    hearts: u8,
    diamonds: u8,
    clubs: u8,
    no_trump: u8,
}

/// The table of a line such as `9,8,8,5,7 4,5,4,8,4 9,8,8,5,7 3,5,4,8,3`, if it has that form.
pub fn parse_line(text: &str) -> Option<TrickTable> {
    let mut words = text.split_whitespace();
    let north = read_numbers(words.next()?)?;
    let east = read_numbers(words.next()?)?;
    let south = read_numbers(words.next()?)?;
    let west = read_numbers(words.next()?)?;
    if words.next().is_some() {
        return None;
    }
    Some(TrickTable {
        spades: of_four(north.spades, east.spades, south.spades, west.spades),
        hearts: of_four(north.hearts, east.hearts, south.hearts, west.hearts),
        diamonds: of_four(north.diamonds, east.diamonds, south.diamonds, west.diamonds),
        clubs: of_four(north.clubs, east.clubs, south.clubs, west.clubs),
        no_trump: of_four(north.no_trump, east.no_trump, south.no_trump, west.no_trump),
    })
}

fn of_four(north: u8, east: u8, south: u8, west: u8) -> StrainTricks {
    StrainTricks {
        north,
        east,
        south,
        west,
    }
}

fn read_numbers(word: &str) -> Option<ByStrain> {
    let mut numbers = word.split(',');
    let by_strain = ByStrain {
        spades: read_number(&mut numbers)?,
        hearts: read_number(&mut numbers)?,
        diamonds: read_number(&mut numbers)?,
        clubs: read_number(&mut numbers)?,
        no_trump: read_number(&mut numbers)?,
    };
    if numbers.next().is_some() {
        return None;
    }
    Some(by_strain)
}

// The next number, if there is one from 0 to 13.
fn read_number(numbers: &mut Split<'_, char>) -> Option<u8> {
    let number = numbers.next()?.parse::<u8>().ok()?;
    if number <= 13 { Some(number) } else { None }
}
