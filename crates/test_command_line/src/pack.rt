use super::words::{KeyFiles, VERSION};
use crate::asserts::assert_same;
use command_line::{Job, LadderJob, line};
use std::alloc::{AllocError, Global};
use std::process::Abort;
use std::test::Fail;

/// What a job asks for: its folder, whether it is synced, the numbers of its pool, how it is read where that is bounded, its paths
/// and its file of metrics.
fn text_of(alloc: Global, job: &LadderJob<'_>) -> Result<String, AllocError> {
    let pool = job.options.pool;
    let batch = pool.batch.unwrap_or(0);
    let resumed = if job.resumes { " resumed" } else { "" };
    let removing = if job.removes { " removing" } else { "" };
    let synced = if job.syncs { " synced" } else { "" };
    let (workers, queue) = (pool.workers, pool.queue);
    let mut text = format!(in alloc;
        "{}{resumed}{removing}{synced} {workers} {queue} {batch}",
        job.folder
    )?;
    if let Some(stall) = pool.stall {
        text.push_str(format!(in alloc; " stall {stall}")?.as_str())?;
    }
    if let Some(ahead) = pool.ahead {
        text.push_str(format!(in alloc; " ahead {ahead}")?.as_str())?;
    }
    for path in &job.options.paths {
        text.push_str(" ")?;
        text.push_str(path)?;
    }
    if let Some(path) = job.metrics {
        text.push_str(" to ")?;
        text.push_str(path)?;
    }
    Ok(text)
}

/// What a command line of `pack` with these words asks for, or what its refusal prints.
fn asked(alloc: Global, more: &[&str]) -> Result<String, Fail> {
    let mut words = Vec::new(alloc);
    words.extend_from_slice(&["tshls", "pack"])?;
    words.extend_from_slice(more)?;
    match line(alloc, &KeyFiles, words.as_slice(), VERSION) {
        Ok(Job::Ladder(job)) => Ok(text_of(alloc, &job)?),
        Ok(_) => Err(Fail::from("another command")),
        Err(fault) => Ok(format!(in alloc; "{fault}")?),
    }
}

/// Stops a test where a command line of `pack` with these words asks for something else, or prints it.
fn check(rt: &impl Abort, alloc: Global, more: &[&str], text: &str) -> Result<(), Fail> {
    let told = asked(alloc, more)?;
    assert_same(rt, more, told.as_str(), text);
    Ok(())
}

const V: &str = "v:c:2x1:000102030405060708090a0b0c0d0e0f:a.ts";

const W: &str = "w:c:2x1:000102030405060708090a0b0c0d0e0f:b:c d";

const POOL: [&str; 9] = [
    "--workers",
    "2",
    "--queue",
    "3",
    "--batch",
    "1",
    "--out",
    "a",
    V,
];

/// Words, and what they ask for or print.
const LADDERS: [(&[&str], &str); 20] = [
    (&["--out", "hls", V], "hls 4 16 0 a.ts"),
    (&[W, V, "--out", "hls"], "hls 4 16 0 b:c d a.ts"),
    (&POOL, "a 2 3 1 a.ts"),
    (&["--sync", "--out", "hls", V], "hls synced 4 16 0 a.ts"),
    (&["--resume", "--out", "hls", V], "hls resumed 4 16 0 a.ts"),
    (&["--out", "hls", V, "--remove"], "hls removing 4 16 0 a.ts"),
    (
        &["--out", "hls", "--stall", "86400", V],
        "hls 4 16 0 stall 86400 a.ts",
    ),
    (
        &["--out", "hls", "--ahead", "65536", V],
        "hls 4 16 0 ahead 65536 a.ts",
    ),
    (
        &["--out", "hls", "--stall", "5", "--ahead", "64", V],
        "hls 4 16 0 stall 5 ahead 64 a.ts",
    ),
    (
        &["--out", "hls", "--stall", "86401", V],
        "tshls: Settings\n",
    ),
    (&["--out", "hls", "--ahead", "0", V], "tshls: Settings\n"),
    (
        &["--metrics", "m.prom", "--out", "hls", V],
        "hls 4 16 0 a.ts to m.prom",
    ),
    (&["--out", "hls", V, "w:c:2x1"], "tshls: BadEntry 2\n"),
    (&["--out", "hls", "--salt", "0", V], "tshls: BadVector\n"),
    (&["--out", "hls", "--workers", "0", V], "tshls: Settings\n"),
    (
        &["--out", "hls", "v:c:2x1:@raw+@hex:a.ts"],
        "hls 4 16 0 a.ts",
    ),
    (
        &["--out", "hls", V, "w:c:2x1:@raw+@bad+@none:b.ts"],
        "tshls: BadKeyFile 2\n",
    ),
    (
        &["--out", "hls", "w:c:2x1:@none:b.ts", V],
        "tshls: Unread\n",
    ),
    (
        &["--out", "hls", "--window", "0", "w:c:2x1:@none:b.ts"],
        "tshls: Settings\n",
    ),
    (
        &["--out", "hls", "w:c:2x1:@none:b.ts", "v:c:2x1:@:a.ts"],
        "tshls: BadEntry 2\n",
    ),
];

#[test]
fn words_of_a_ladder(rt: HostRuntime) -> Result<(), Fail> {
    for (words, text) in LADDERS {
        check(&rt, rt.alloc(), words, text)?;
    }
    Ok(())
}
