//! What the words of the command line say of workers and of schedules, which no row can show.

use command_words::{Job, PortJob, SessionJob, Text, TextJob, read_arguments};
use exchange_limits::WorkerCount;
use plan_answers::{Planning, ScheduleSource};
use std::alloc::{AllocError, Global};

/// What words say of how their schedule is made.
#[derive(Clone, Copy, PartialEq)]
enum Said<'a> {
    Workers(usize),
    Steady,
    File(&'a str),
    Nothing,
}

/// Puts the words of a line, which one space parts.
fn push_words(alloc: Global, words: &mut Vec<String>, line: &str) -> Result<(), AllocError> {
    for word in line.split(' ') {
        words.push(String::from_str(alloc, word)?)?;
    }
    Ok(())
}

/// What a source of a schedule says of it, where so many workers may plan.
fn said_of(source: &ScheduleSource<Text>, workers: WorkerCount) -> Said<'_> {
    match source {
        ScheduleSource::Plan(Planning::Plain) => Said::Workers(workers.get()),
        ScheduleSource::Plan(Planning::Steady) => Said::Steady,
        ScheduleSource::Text(file) => Said::File(file.as_str()),
    }
}

/// What a job says of how its schedule is made.
fn said_by(job: &Job) -> Said<'_> {
    match job {
        Job::Texts(
            TextJob::Plan {
                planning: Planning::Steady,
                ..
            },
        ) => Said::Steady,
        Job::Texts(
            TextJob::Switch {
                source,
                workers,
                ..
            }
            | TextJob::Orders {
                source,
                workers,
                ..
            }
            | TextJob::Run {
                source,
                workers,
                ..
            },
        )
        | Job::Ports(
            PortJob::Drive {
                source,
                workers,
                ..
            },
        ) => said_of(source, *workers),
        Job::Texts(TextJob::Plan { workers, .. } | TextJob::Apply { workers, .. })
        | Job::Sessions {
            job: SessionJob::Serve { workers, .. } | SessionJob::Host { workers, .. },
            ..
        } => Said::Workers(workers.get()),
        _ => Said::Nothing,
    }
}

/// Whether words say this.
fn are_read_as(alloc: Global, words: &[String], said: &Said<'_>) -> bool {
    match read_arguments(alloc, words) {
        Ok(request) => said_by(&request.job) == *said,
        Err(_) => false,
    }
}

/// Whether the words of a line say this.
fn is_read_as(alloc: Global, line: &str, said: &Said<'_>) -> bool {
    let mut words = Vec::new(alloc);
    push_words(alloc, &mut words, line).is_ok() && are_read_as(alloc, words.as_slice(), said)
}

/// Whether each line says what stands beside it.
fn are_all_read_as(alloc: Global, rows: &[(&str, Said<'_>)]) -> bool {
    for (line, said) in rows {
        if !is_read_as(alloc, line, said) {
            return false;
        }
    }
    true
}

#[test]
fn words_name_workers(rt: HostRuntime) {
    let rows = [
        ("exchange plan F", Said::Workers(1)),
        ("exchange plan F --workers 64", Said::Workers(64)),
        ("exchange plan F --workers +5", Said::Workers(5)),
        ("exchange plan F --workers 007", Said::Workers(7)),
        ("exchange switch B", Said::Workers(1)),
        ("exchange switch B --workers 3", Said::Workers(3)),
        ("exchange orders B", Said::Workers(1)),
        ("exchange orders B --module 4 --workers 3", Said::Workers(3)),
        ("exchange drive B P", Said::Workers(1)),
        ("exchange drive B P Q --workers 3", Said::Workers(3)),
        ("exchange apply S B I --workers 9", Said::Workers(9)),
        ("exchange run S B", Said::Workers(1)),
        ("exchange run --workers 3 S B", Said::Workers(3)),
        ("exchange serve S A", Said::Workers(1)),
        ("exchange serve S A B --workers 64", Said::Workers(64)),
        ("exchange serve --workers 2 S A B", Said::Workers(2)),
        ("exchange host S A B --workers 5", Said::Workers(5)),
        ("exchange check B S", Said::Nothing),
        ("exchange c004", Said::Nothing),
    ];
    assert!(rt; are_all_read_as(rt.alloc(), &rows));
}

#[test]
fn words_name_schedules(rt: HostRuntime) {
    let rows = [
        ("exchange plan F --steady", Said::Steady),
        ("exchange switch --steady B", Said::Steady),
        ("exchange switch B --schedule S", Said::File("S")),
        ("exchange switch --schedule=S -", Said::File("S")),
        ("exchange switch B --schedule -", Said::File("-")),
        ("exchange drive --steady B P", Said::Steady),
        ("exchange drive B P Q --schedule S", Said::File("S")),
        ("exchange drive B P --schedule - --go-on", Said::File("-")),
        (
            "exchange drive B P --schedule - --wiring W --go-on",
            Said::File("-"),
        ),
        (
            "exchange drive B P --schedule S --wiring - --go-on",
            Said::File("S"),
        ),
        (
            "exchange drive - P --steady --wiring W --go-on",
            Said::Steady,
        ),
        ("exchange drive B P --steady --wiring W", Said::Steady),
        ("exchange run S B --steady", Said::Steady),
        ("exchange run S B --schedule T", Said::File("T")),
        ("exchange run S - --schedule=T --image I", Said::File("T")),
        ("exchange run S B --image - --schedule T", Said::File("T")),
        ("exchange run S B --image I --schedule -", Said::File("-")),
    ];
    assert!(rt; are_all_read_as(rt.alloc(), &rows));
}
