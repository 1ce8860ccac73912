// Runs the count on votes of its own: files that are refused and files that are counted, worked counts, clones that are
// struck, certificates that are damaged, draws that decide, and counts that go on. The gate compares what is printed
// with the file stdout.
#![tactic(auto)]

mod clones;
mod draws;
mod running_counts;
mod sheets;
mod tables;
mod votes;
mod worked_counts;

fn main(rt: HostRuntime) -> anyhow::Result<()> {
    tables::refused(&rt)?;
    tables::counted(&rt)?;
    tables::greatest(&rt)?;
    tables::lent(&rt)?;
    worked_counts::all(&rt)?;
    clones::all(&rt)?;
    sheets::all(&rt)?;
    draws::all(&rt)?;
    running_counts::all(&rt)
}
