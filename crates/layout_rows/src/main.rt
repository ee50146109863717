// Prints each row of STANDARD_LAYOUTS with the tag that its own labels get, and three lists of labels that no row has. What it must
// print is worked out from the Rust's text by tools/layout_rows.py.
#![tactic(auto)]

ghost use Rattle.std.specs.Prelude.{◌≤◌};

use layout::label::{LEFT, MONO, RIGHT};
use layout::search::layout_for;
use layout::table::{ROWS, row_at};
use layout::{ChannelLayout, Row};
use std::io;

fn numbers(rt: &impl Print, labels: &[u32]) -> io::Result<()> {
    for label in labels {
        print!(rt; " {label}")?;
    }
    Ok(())
}

fn answer(rt: &impl Print, layout: ChannelLayout) -> io::Result<()> {
    match layout {
        ChannelLayout::NoLayout => println!(rt; " gets no layout"),
        ChannelLayout::Tagged(tag) => println!(rt; " gets {tag}"),
        ChannelLayout::Described => println!(rt; " gets described"),
    }
}

fn row_line(rt: &impl Print, row: Row) -> io::Result<()>
    requires { row.count ≤ 8 }
{
    let labels = &row.labels[..row.count];
    print!(rt; "{}:", row.tag)?;
    numbers(rt, labels)?;
    answer(rt, layout_for(labels))
}

fn other_line(rt: &impl Print, labels: &[u32]) -> io::Result<()> {
    print!(rt; "none:")?;
    numbers(rt, labels)?;
    answer(rt, layout_for(labels))
}

fn main(rt: HostRuntime) -> io::Result<()> {
    for i in 0..ROWS {
        row_line(&rt, row_at(i))?;
    }
    other_line(&rt, &[RIGHT, LEFT])?;
    other_line(&rt, &[])?;
    other_line(&rt, &[MONO])
}
