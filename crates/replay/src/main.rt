// The inputs that compare/ gives the unchanged Rust, made again, and a line for each answer of this
// project's calls to them, or for a hash of many. The Rust printed the stored output, so these calls
// are held to a sample of its answers, and no Rust is needed. compare/src/sample.rs has the lines.
#![tactic(auto)]

use sample::output::Output;

fn main(rt: HostRuntime) -> anyhow::Result<()> {
    let rt = Output { rt };
    replay_lines::all_lines(&rt)?;
    replay_fields::all_lines(&rt)?;
    replay_baryon::all_lines(&rt)
}
