//! The page, in the text format of Prometheus (prometheus.io/docs/instrumenting/exposition_formats).

use crate::meters::Meters;
use std::alloc::{AllocError, Global};
use std::io;
use std::sync::Wait;
use std::time::{Clock, Duration};
use tab_book::{Activity, Shared};
use tab_post::Host;
use tab_server::Count;
use tab_tables::Catalog;

/// The tables of a book, and the number of its journal's entries, at one time.
#[derive(Drop)]
pub struct Holdings {
    tables: Catalog,
    /// The number of sessions that watch each of them.
    watchers: Vec<u64>,
    /// Entries of the journal.
    entries: u64,
}

impl Holdings {
    /// The holdings of a book. The book is locked only while its tables are shared, which takes constant time, and then
    /// once for each table while its watchers are counted.
    pub fn of<H: Host>(
        host: &H,
        alloc: Global,
        shared: &Shared<H>,
    ) -> Result<Holdings, AllocError> {
        let (tables, entries) = shared_tables(host, shared)?;
        let mut watchers = Vec::new(alloc);
        for entry in tables.tables() {
            let count = shared.hold(host).watchers(&entry.pair().0);
            watchers.push(count as u64)?;
        }
        Ok(Holdings {
            tables,
            watchers,
            entries,
        })
    }
}

/// The tables, and how many entries the journal has.
fn shared_tables<H: Host>(host: &H, shared: &Shared<H>) -> Result<(Catalog, u64), AllocError> {
    let book = shared.hold(host);
    Ok((book.tables().share()?, book.journal().len() as u64))
}

/// The texts of the page of meters and of the page of sessions, and a clock.
pub trait Paged {
    /// The page of meters, from the holdings of the book.
    fn page(&self, holdings: &Holdings) -> Result<String, AllocError>;

    /// The page of sessions, from the sessions' activities.
    fn sessions(&self, activities: &[Activity]) -> Result<String, AllocError>;

    /// The time since a start, which stays the same.
    fn now(&self) -> io::Result<Duration>;
}

/// A counter's name, without what all names have, and what it says.
struct Counter {
    count: Count,
    name: &'static str,
    help: &'static str,
}

static COUNTERS: [Counter; 8] = [
    Counter {
        count: Count::Commits,
        name: "commits",
        help: "Transactions that were committed.",
    },
    Counter {
        count: Count::Aborts,
        name: "aborts",
        help: "Transactions that ended without a commit.",
    },
    Counter {
        count: Count::Restarts,
        name: "restarts",
        help: "Restarts of transactions.",
    },
    Counter {
        count: Count::Waits,
        name: "waits",
        help: "Operations that have waited for a lock.",
    },
    Counter {
        count: Count::GivenUp,
        name: "given_up",
        help: "One-shots whose restarts were used up.",
    },
    Counter {
        count: Count::Items,
        name: "items_sent",
        help: "Items of outboxes that were sent.",
    },
    Counter {
        count: Count::Read,
        name: "read_bytes",
        help: "Bytes of requests.",
    },
    Counter {
        count: Count::Written,
        name: "written_bytes",
        help: "Bytes of replies and items.",
    },
];

/// The page of these meters.
pub fn page_of<R: Wait + Clock>(
    rt: &R,
    alloc: Global,
    meters: &Meters,
    holdings: &Holdings,
) -> Result<String, AllocError> {
    let mut page = Page {
        text: String::new(alloc),
    };
    page.server(meters)?;
    page.counters(meters)?;
    page.waits(meters.waiting(), meters.waited())?;
    page.transactions(meters.open(rt), meters.oldest(rt))?;
    page.tables(&holdings.tables)?;
    page.watchers(holdings)?;
    page.gauge(
        "journal_entries",
        "Entries of the journal.",
        holdings.entries,
    )?;
    Ok(page.text)
}

/// A page that is written.
#[derive(Drop)]
struct Page {
    text: String,
}

impl Page {
    /// The server's version, its connections and its sessions.
    fn server(&mut self, meters: &Meters) -> Result<(), AllocError> {
        let about = meters.about();
        self.head("build_info", "gauge", "The version of tabd; 1.")?;
        self.labeled("build_info", "version", about.version, 1)?;
        self.gauge(
            "connections_limit",
            "Connections that are accepted; with --forever, how many at once.",
            u64::from(about.connections),
        )?;
        self.counter(
            "connections_refused",
            "Connections that were closed since as many were served as may be.",
            meters.refused(),
        )?;
        self.counter(
            "sessions_started",
            "Sessions that have started.",
            meters.started(),
        )?;
        self.counter(
            "sessions_idle_ended",
            "Sessions that were ended since they were idle.",
            meters.idle(),
        )?;
        self.counter(
            "sessions_limit_ended",
            "Sessions that were ended since their transaction was open for too long.",
            meters.limited(),
        )?;
        self.gauge("sessions", "Sessions that are joined.", meters.sessions())?;
        match meters.start() {
            Some(start) => self.gauge(
                "start_time_seconds",
                "When the server started, in seconds from 1970 on.",
                start,
            ),
            None => Ok(()),
        }
    }

    /// The operations that wait for locks now, and the time that operations have waited.
    fn waits(&mut self, waiting: u64, waited: Duration) -> Result<(), AllocError> {
        self.gauge(
            "waiting_operations",
            "Operations that wait for a lock now.",
            waiting,
        )?;
        self.head(
            "lock_wait_seconds_total",
            "counter",
            "How long operations have waited for locks.",
        )?;
        let (seconds, micros) = (waited.as_secs(), waited.subsec_micros());
        write!(
            self.text,
            "tabd_lock_wait_seconds_total {seconds}.{micros:06}\n"
        )?;
        Ok(())
    }

    fn counters(&mut self, meters: &Meters) -> Result<(), AllocError> {
        for counter in &COUNTERS {
            self.counter(counter.name, counter.help, meters.total(counter.count))?;
        }
        self.counter("overflows", "Outboxes that were full.", meters.overflows())
    }

    /// The number of open ones, and the age of the oldest in seconds.
    fn transactions(&mut self, open: u64, oldest: u64) -> Result<(), AllocError> {
        self.gauge("open_transactions", "Transactions that are open.", open)?;
        self.gauge(
            "oldest_transaction_seconds",
            "How long the oldest of them is open.",
            oldest,
        )
    }

    /// Each table's records, and how many tables and records there are.
    fn tables(&mut self, tables: &Catalog) -> Result<(), AllocError> {
        self.head("table_records", "gauge", "Records of each table.")?;
        let mut count: u64 = 0;
        let mut records: u64 = 0;
        for entry in tables.tables() {
            let (name, table) = entry.pair();
            let size = table.size() as u64;
            self.labeled("table_records", "table", name.as_str(), size)?;
            count = count.saturating_add(1);
            records = records.saturating_add(size);
        }
        self.gauge("tables", "Tables.", count)?;
        self.gauge("records", "Records of all tables.", records)
    }

    /// The number of sessions that watch each table.
    fn watchers(&mut self, holdings: &Holdings) -> Result<(), AllocError> {
        self.head("table_watchers", "gauge", "Sessions that watch each table.")?;
        for (entry, count) in holdings.tables.tables().zip(&holdings.watchers) {
            self.labeled("table_watchers", "table", entry.pair().0.as_str(), *count)?;
        }
        Ok(())
    }

    fn counter(&mut self, name: &str, help: &str, value: u64) -> Result<(), AllocError> {
        write!(self.text, "# HELP tabd_{name}_total {help}\n")?;
        write!(self.text, "# TYPE tabd_{name}_total counter\n")?;
        write!(self.text, "tabd_{name}_total {value}\n")?;
        Ok(())
    }

    fn gauge(&mut self, name: &str, help: &str, value: u64) -> Result<(), AllocError> {
        self.head(name, "gauge", help)?;
        write!(self.text, "tabd_{name} {value}\n")?;
        Ok(())
    }

    /// The lines before a metric's samples.
    fn head(&mut self, name: &str, kind: &str, help: &str) -> Result<(), AllocError> {
        write!(self.text, "# HELP tabd_{name} {help}\n")?;
        write!(self.text, "# TYPE tabd_{name} {kind}\n")?;
        Ok(())
    }

    /// A sample with one label, whose value is any text.
    fn labeled(
        &mut self,
        name: &str,
        label: &str,
        text: &str,
        value: u64,
    ) -> Result<(), AllocError> {
        write!(self.text, "tabd_{name}{{{label}=\"")?;
        push_escaped(&mut self.text, text)?;
        write!(self.text, "\"}} {value}\n")?;
        Ok(())
    }
}

/// Appends a label's value, in which the text format escapes three characters.
fn push_escaped(text: &mut String, value: &str) -> Result<(), AllocError> {
    for character in value.chars() {
        match character {
            '\\' => text.push_str("\\\\")?,
            '"' => text.push_str("\\\"")?,
            '\n' => text.push_str("\\n")?,
            other => text.push(other)?,
        }
    }
    Ok(())
}
