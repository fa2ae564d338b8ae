// Reads serial lines from standard input and does them in order on one readings table. It says, line by line, what each one
// asks for in exact thousandths and what the table replies, or what is wrong with the line and where; and then the table.

#![tactic(auto)]

ghost use Rattle.std.specs.Prelude.{◌≡◌, List, IfOk};
ghost use Rattle.intake.specs.Tallies.{tally_of};
ghost use Rattle.tables.specs.Readings.{readings};
ghost use Rattle.tables.specs.ReadingsRecords.{tabled};
ghost use Rattle.tables.specs.declared.row.Row.{Row};
ghost use Rattle.tray.specs.Trays.{rows_of};

use intake::{Desk, Tally, read_input, take_all};
use service::{Request, Service};
use std::io;
use tables::Readings;

// Does each request on a readings table, and says the reply beside it.
#[derive(Drop)]
struct Tray {
    table: Readings,
}

impl Desk for Tray {
    ghost State = { List Row };

    ghost state = { λ tray. tabled tray.table };

    ghost after = { λ rows request. (readings.doing rows request).after };

    fn answer(&mut self, rt: &impl Print, number: usize, request: Request) -> io::Result<()> {
        let doing = self.table.perform(request);
        let reply = doing.reply;
        println!(rt; "{number}: {request} -> {reply}")?;
        self.table = doing.after;
        Ok(())
    }
}

// Does and says each line of a text, in order, on an empty table.
fn fill(rt: &impl Print, text: &[u8]) -> io::Result<(Readings, Tally)>
    ensures { IfOk result (λ filled. (filled.1 ≡ tally_of text.now) × (tabled filled.0 ≡ rows_of text.now)) }
{
    let mut tray = Tray {
        table: Readings::clear(),
    };
    let tally = take_all(rt, text, &mut tray)?;
    Ok((tray.table, tally))
}

// Says the rows of a table, each on a line.
fn say_rows(rt: &impl Print, table: &Readings) -> io::Result<()> {
    let rows = table.rows();
    println!(rt; "rows: {}", rows.len())?;
    for row in rows {
        println!(rt; "{row}")?;
    }
    Ok(())
}

fn run(rt: &HostRuntime) -> anyhow::Result<()> {
    let text = read_input(rt.alloc(), rt.stdin())?;
    let (table, tally) = fill(rt, text.as_slice())?;
    println!(rt; "{tally}")?;
    say_rows(rt, &table)?;
    Ok(())
}

fn main(rt: HostRuntime) -> anyhow::Result<()> {
    run(&rt)
}
