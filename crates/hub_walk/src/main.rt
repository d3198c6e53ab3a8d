// An example of the hub's calls: two commands, a master that is lost while both are under way, and the success.
// After every step it looks, and prints both answers.
#![tactic(auto)]

use anyhow::anyhow;
use hub::{Answer, Call, run};
use hub_cards::*;
use hub_records::commands::*;
use hub_records::hub::Counts;
use hub_records::look::Look;
use hub_tables::tables::Tables;
use refusals::Refusal;
use registers::{Register, Sum};

// The letters of the steps and the numbers of their commands.
const STEPS: [(char, usize); 22] = [
    ('A', 1),
    ('B', 1),
    ('C', 1),
    ('A', 2),
    ('Q', 0),
    ('P', 0),
    ('Q', 0),
    ('E', 1),
    ('N', 1),
    ('G', 2),
    ('J', 2),
    ('N', 2),
    ('A', 1),
    ('B', 1),
    ('C', 1),
    ('D', 1),
    ('F', 1),
    ('A', 2),
    ('B', 2),
    ('C', 2),
    ('D', 2),
    ('F', 2),
];

fn print_look(rt: HostRuntime, look: Look) -> anyhow::Result<()> {
    println!(rt;
        "  {}, {} steps, {} losses, {} done, master {} version {}, backup {} version {}",
        look.state.name(),
        look.steps,
        look.losses,
        look.done,
        look.master.0,
        look.master_version,
        look.backup.0,
        look.backup_version
    )?;
    Ok(())
}

fn print_answer(
    rt: HostRuntime,
    call: Call,
    answer: Result<Answer, Refusal>,
) -> anyhow::Result<()> {
    match (call, answer) {
        (_, Ok(Answer::Seen(look))) => print_look(rt, look)?,
        (Call::Step { letter, command }, Ok(Answer::Stepped)) => {
            println!(rt; "{letter}{command}: stepped")?
        }
        (Call::Step { letter, command }, Err(refusal)) => {
            println!(rt; "{letter}{command}: refused {}", refusal.number())?
        }
        (Call::Look, _) => {}
    }
    Ok(())
}

// Each step, and a look after it.
fn plan() -> [Call; 44] {
    let mut calls = [Call::Look; 44];
    for (call, (letter, command)) in calls.iter_mut().step_by(2).zip(STEPS) {
        *call = Call::Step { letter, command };
    }
    calls
}

fn main(rt: HostRuntime) -> anyhow::Result<()> {
    let calls = plan();
    let mut answers = [Ok(Answer::Stepped); 44];
    // The arrays are the caller's: a `Tables` only borrows them.
    let mut tables = Tables {
        commands: &mut [Command::blank(); 2],
        masters: &mut [Card::unused(BackupNumber(0)); 2],
        master_registers: &mut [Sum::empty(); 2],
        backups: &mut [Card::unused(MasterNumber(0)); 2],
        backup_registers: &mut [Sum::empty(); 2],
    };
    let counts = Counts {
        commands: 2,
        kills: 1,
        cards: 2,
    };
    run(counts, &[150, -125], &mut tables, &calls, &mut answers).map_err(|_| anyhow!(
        "the hub was not made"
    ))?;
    for (call, answer) in calls.iter().zip(answers.iter()) {
        print_answer(rt, *call, *answer)?;
    }
    Ok(())
}
