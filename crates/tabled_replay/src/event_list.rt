//! A plain reader of a list of events, that stands beside the store.
//!
//! It keeps nothing but the list, and finds what it is asked by going over it from the start, as the
//! definitions of the events say. The tests of the store compare the two. Nothing else calls it.

ghost use Rattle.std.specs.Prelude.{◌≡◌};
ghost use Rattle.tabled_places.specs.Site.{stands as stands_at, level as level_at, same_site};
ghost use Rattle.tabled_places.specs.Event.{within as is_within, covers as is_covering, replay as replayed};
ghost use Rattle.tabled_places.specs.Value.{value as value_at, first_sign as first_sign_at};
ghost use Rattle.tabled_places.specs.Drawn.{draws as is_drawing, drawn as is_drawn};
ghost use Rattle.tabled_places.specs.declared.place.LineOf.{LineOf as Line};

use tabled_grid::{
    Class, Direction, Event, LineOf, Offset, Part, Place, Rank, Region, Site, Spot, Written,
};

/// Returns what a list of events leaves at a site.
pub fn replay(events: &[Event<char>], site: Site) -> Option<Written<char>>
    ensures { result ≡ replayed events.now site }
{
    let mut found = None;
    for event in events {
        if covers(*event, site) {
            found = match *event {
                Event::Write(_, written) => Some(written),
                Event::Erase(_) => None,
            };
        }
    }
    found
}

/// Returns the value of a place, in a table of `shape.0` rows and `shape.1` columns, where its edge is `size` characters long.
pub fn value(
    events: &[Event<char>],
    shape: (usize, usize),
    size: usize,
    place: Place,
) -> Option<char>
    ensures { result ≡ value_at (replayed events.now) shape size place }
{
    if !place.is_inside(shape, size) {
        return None;
    }
    let (rows, cols) = shape;
    match place {
        Place::Horizontal { row, col, at } => first_sign(
            events,
            &[
                Site::Offset(Direction::Horizontal, row, col, Offset::Start(at)),
                Site::Offset(Direction::Horizontal, row, col, Offset::End(size - 1 - at)),
                Site::Cell(Spot::Edge(Direction::Horizontal, row, col)),
                Site::Line(LineOf::Horizontal(row), Part::Edges),
                Site::Class(Class::Edges(Direction::Horizontal, Rank::of(row, rows))),
                Site::Default,
            ],
        ),
        Place::Vertical { row, col, at } => first_sign(
            events,
            &[
                Site::Offset(Direction::Vertical, row, col, Offset::Start(at)),
                Site::Offset(Direction::Vertical, row, col, Offset::End(size - 1 - at)),
                Site::Cell(Spot::Edge(Direction::Vertical, row, col)),
                Site::Line(LineOf::Vertical(col), Part::Edges),
                Site::Class(Class::Edges(Direction::Vertical, Rank::of(col, cols))),
                Site::Default,
            ],
        ),
        Place::Cross { row, col } => {
            let row_rank = Rank::of(row, rows);
            let col_rank = Rank::of(col, cols);
            first_sign(
                events,
                &[
                    Site::Cell(Spot::Crossing(row, col)),
                    Site::Line(LineOf::Horizontal(row), Part::Crossings(col_rank)),
                    Site::Line(LineOf::Vertical(col), Part::Crossings(row_rank)),
                    Site::Class(Class::Crossings(row_rank, col_rank)),
                    Site::Default,
                ],
            )
        }
    }
}

/// Returns whether a line is drawn, of the lines 0 to `count` of its direction.
pub fn drawn(events: &[Event<char>], count: usize, line: LineOf) -> bool
    ensures { result ≡ is_drawn events.now count line }
{
    if line.number() > count {
        return false;
    }
    for event in events {
        if let Event::Write(site, _) = *event {
            if draws(count, line, site) && replay(events, site).is_some() {
                return true;
            }
        }
    }
    false
}

/// The first character that is kept at one of the sites.
fn first_sign(events: &[Event<char>], sites: &[Site]) -> Option<char>
    ensures { result ≡ first_sign_at (replayed events.now) sites.now }
{
    for site in sites {
        if let Some(Written::Sign(character)) = replay(events, *site) {
            return Some(character);
        }
    }
    None
}

/// Whether an event decides what a site has.
fn covers(event: Event<char>, site: Site) -> bool
    ensures { result ≡ is_covering site event }
{
    match event {
        Event::Write(at, _) => same(site, at),
        Event::Erase(region) => within(region, site),
    }
}

fn within(region: Region, site: Site) -> bool
    ensures { result ≡ is_within region site }
{
    match region {
        Region::All => true,
        Region::Level(number) => level(site) == number,
        Region::Offsets(direction) => match site {
            Site::Offset(way, ..) => direction == way,
            _ => false,
        },
        Region::Line(line) => match site {
            Site::Line(other, _) => line == other,
            _ => false,
        },
        Region::One(at) => same(site, at),
    }
}

fn same(site: Site, other: Site) -> bool
    ensures { result ≡ same_site site other }
{
    match (site, other) {
        (Site::Default, Site::Default) => true,
        (Site::Class(class), Site::Class(other_class)) => class == other_class,
        (Site::Line(line, part), Site::Line(other_line, other_part)) => {
            line == other_line && part == other_part
        }
        (Site::Cell(spot), Site::Cell(other_spot)) => spot == other_spot,
        (
            Site::Offset(way, row, col, offset),
            Site::Offset(other_way, other_row, other_col, other_offset),
        ) => { way == other_way && row == other_row && col == other_col && offset == other_offset }
        _ => false,
    }
}

/// How strong what is kept at a site is.
fn level(site: Site) -> usize
    ensures { result ≡ level_at site }
{
    match site {
        Site::Default => 0,
        Site::Class(_) => 1,
        Site::Line(LineOf::Vertical(_), _) => 2,
        Site::Line(LineOf::Horizontal(_), _) => 3,
        Site::Cell(_) => 4,
        Site::Offset(_, _, _, Offset::End(_)) => 5,
        Site::Offset(_, _, _, Offset::Start(_)) => 6,
    }
}

/// Whether line `line` stands there, of the lines 0 to `count`.
fn stands(rank: Rank, count: usize, line: usize) -> bool
    ensures { result ≡ stands_at rank count line }
{
    match rank {
        Rank::First => line == 0,
        Rank::Inner => 0 < line && line < count,
        Rank::Last => line == count,
    }
}

/// Whether something kept at a site draws the line, of the lines 0 to `count` of its direction.
fn draws(count: usize, line: LineOf, site: Site) -> bool
    ensures { result ≡ is_drawing count line site }
{
    match line {
        LineOf::Horizontal(row) => draws_row(count, row, site),
        LineOf::Vertical(col) => draws_col(count, col, site),
    }
}

fn draws_row(count: usize, line: usize, site: Site) -> bool
    ensures { result ≡ is_drawing count (Line.Horizontal line) site }
{
    match site {
        Site::Default => true,
        Site::Class(Class::Edges(Direction::Horizontal, rank) | Class::Crossings(rank, _)) => {
            stands(rank, count, line)
        }
        Site::Line(LineOf::Horizontal(row), Part::Mark) => row == line,
        Site::Line(LineOf::Vertical(_), Part::Crossings(Rank::First)) => line == 0,
        Site::Line(LineOf::Vertical(_), Part::Crossings(Rank::Last)) => line == count,
        Site::Cell(Spot::Edge(Direction::Horizontal, row, _) | Spot::Crossing(row, _)) => row
            == line,
        _ => false,
    }
}

fn draws_col(count: usize, line: usize, site: Site) -> bool
    ensures { result ≡ is_drawing count (Line.Vertical line) site }
{
    match site {
        Site::Default => true,
        Site::Class(Class::Edges(Direction::Vertical, rank) | Class::Crossings(_, rank))
        | Site::Line(LineOf::Horizontal(_), Part::Crossings(rank)) => stands(rank, count, line),
        Site::Line(LineOf::Vertical(col), Part::Mark) => col == line,
        Site::Cell(Spot::Edge(Direction::Vertical, _, col) | Spot::Crossing(_, col)) => col == line,
        _ => false,
    }
}
