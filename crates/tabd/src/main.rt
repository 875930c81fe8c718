//! The program: tables served over frames.
#![tactic(auto)]

mod address;
mod draining;
mod ending;
mod lines;
mod opening;
mod running;
mod serving;
mod slow;
mod socket_file;

use lines::{Lines, Told};
use running::{Program, run};
use std::marker::Brand;
use std::process::ExitCode;
use std::time::Clock;
use tab_book::Opened;
use tab_etf::Counted;
use tab_metrics::{About, Meters};
use tab_session::{Ended, replay};
use tab_words::{Log, Run, Service, VERSION, asked};

fn main(rt: HostRuntime) -> ExitCode {
    let mut input = Counted::new(rt.stdin());
    let mut output = Counted::new(rt.stdout());
    let mut errors = Counted::new(rt.stderr());
    let wanted = asked(&rt);
    let told = match &wanted {
        Ok(Run::Serve(_, service)) => told(&rt, service),
        _ => Told {
            log: Log::Brief,
            meters: None,
            slow: None,
            limit: None,
            idle: None,
        },
    };
    let lines = Lines::new(
        rt,
        rt.alloc(),
        told,
        Counted::new(rt.stderr()),
        Counted::new(rt.stdin()),
    );
    let program = Program {
        rt: &rt,
        opened: Opened::new(),
        gate: &lines,
    };
    let status = run::<Brand, _, _, _, _, _>(program, wanted, &mut input, &mut output, &mut errors);
    lines.put_reason();
    status
}

fn told<R: Clock>(rt: &R, service: &Service) -> Told {
    Told {
        log: service.log,
        meters: meters(rt, service),
        slow: service.slow,
        limit: service.limit,
        idle: service.idle,
    }
}

/// The counters of a server that has a page of them, or that times transactions.
fn meters<R: Clock>(rt: &R, service: &Service) -> Option<Meters> {
    if service.metrics.is_none() && service.slow.is_none() && service.limit.is_none() {
        return None;
    }
    let about = About {
        version: VERSION,
        connections: service.sizes.connections,
    };
    Some(Meters::new(rt, about))
}
