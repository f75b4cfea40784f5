//! A database in a folder: an apple is put into it, and read again.

use anyhow::Context;
use lsm_database::{Database, Images, Program, StateFault, SystemPaths, open};
use std::io::Print;
use std::sync::Wait;
use std::thread::Threads;
use std::{env, fs, process};

/// What is done with the database.
#[derive(Drop)]
struct Fruits;

impl Program for Fruits {
    type Answer = Result<Option<Vec<u8>>, StateFault>;

    fn run<D: Database>(self, database: &mut D) -> Self::Answer {
        database.put(b"apple", b"red")?;
        Ok(database.get(b"apple")?)
    }
}

/// Opens the database in a folder, and prints what is read.
fn show_apple<R: Threads + Wait + Print + Sync>(
    rt: &R,
    files: HostRuntime,
    path: &str,
) -> anyhow::Result<()> {
    let (apple, _ends) = open(rt, &SystemPaths::<Images>::new(files), path, Fruits)?;
    match apple? {
        Some(value) => println!(rt; "apple: {}", str::from_utf8(&value)?)?,
        None => println!(rt; "apple: absent")?,
    }
    Ok(())
}

/// A new folder of this process's own.
fn scratch(host: &HostRuntime) -> anyhow::Result<String> {
    let parent = env::temp_dir(host)?;
    let parent = parent.to_str().context("no path")?;
    let id = process::id(host.process());
    let path = format!(in host.alloc(); "{parent}/fruits-{id}")?;
    fs::create_dir(host, path.as_str())?;
    Ok(path)
}

/// What a program does with a database.
pub fn show_database<R: Threads + Wait + Print + Sync>(
    rt: &R,
    host: HostRuntime,
) -> anyhow::Result<()> {
    let path = scratch(&host)?;
    let shown = show_apple(rt, host.clone()?, path.as_str());
    fs::remove_dir_all(&host, path.as_str())?;
    shown
}
