// Runs cases with known results: texts, and the calls of a comparison. Each line says what was expected and what came, the last one
// how many cases there were and how many were wrong.
#![tactic(auto)]

mod run;
mod text_rows;
mod texts;
mod weigh_rows;
mod weighings;

use run::Run;

fn main(rt: HostRuntime) -> anyhow::Result<()> {
    let mut run = Run::new(&rt);
    run.texts()?;
    run.weighings()?;
    let tally = run.tally;
    println!(rt; "{tally}")?;
    Ok(())
}
