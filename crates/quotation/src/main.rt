// Takes one quotation through its acts: reads who proposes what, asks the studio's rules before each act, and prints what was done.
#![tactic(auto)]

mod act;
mod person;
mod rules;
mod walk;

use rules::StudioRules;
use walk::{Quotation, read_proposal};

fn run(rt: &HostRuntime) -> anyhow::Result<()> {
    let heap = rt.alloc();
    let rules = StudioRules::new()?;
    let mut quotation = Quotation::new(heap);
    for line in rt.lines(heap) {
        let line = line?;
        let text = line.as_str();
        if text.is_empty() {
            continue;
        }
        match read_proposal(text) {
            Some(proposal) => match quotation.propose(heap, &rules, proposal)? {
                Ok(()) => println!(rt; "{text}: allowed")?,
                Err(forbidden) => println!(rt; "{text}: {forbidden}")?,
            },
            None => println!(rt; "{text}: no proposal")?,
        }
    }
    println!(rt; "who did what")?;
    for person in quotation.people() {
        println!(rt; "  {person}")?;
    }
    Ok(())
}

fn main(rt: HostRuntime) -> anyhow::Result<()> {
    run(&rt)
}
