// Which command lines are read, and as what.
use command_line::{CommandLineFault, Location, Order, Service, SoleSession, read_command_line};
use std::alloc::Global;
use std::process::Abort;

/// Reads a line, split at each space, as a command line.
fn read(rt: &impl Abort, alloc: Global, line: &str) -> Result<Order, CommandLineFault> {
    let mut words = Vec::new(alloc);
    for word in line.split(' ') {
        let word = String::from_str(alloc, word).expect(rt, "memory");
        words.push(word).expect(rt, "memory");
    }
    read_command_line(alloc, words.as_slice())
}

/// Gives a location as one text.
fn located(location: &Location) -> &str {
    match location {
        Location::Memory => "in memory",
        Location::Folder(folder) => folder.as_str(),
    }
}

/// Joins words by commas.
fn joined(rt: &impl Abort, alloc: Global, words: &[String]) -> String {
    let mut text = String::new(alloc);
    for word in words {
        if !text.is_empty() {
            text.push(',').expect(rt, "memory");
        }
        text.push_str(word.as_str()).expect(rt, "memory");
    }
    text
}

/// Gives one session over the standard streams as one text.
fn sole(rt: &impl Abort, alloc: Global, session: &SoleSession) -> String {
    let SoleSession {
        location,
        name,
        account,
        revprops,
    } = session;
    let location = located(location);
    let text = match account {
        Some(account) => format!(in alloc; "stdio {location} {name} {revprops} {account}"),
        None => format!(in alloc; "stdio {location} {name} {revprops}"),
    };
    text.expect(rt, "memory")
}

/// Gives sessions over TCP as one text.
fn served(rt: &impl Abort, alloc: Global, service: &Service) -> String {
    let Service {
        location,
        listen,
        name,
        users,
        sessions,
        per_address,
        revprops,
        quiet,
        exit_on_halt,
    } = service;
    let location = located(location);
    let listen = joined(rt, alloc, listen.as_slice());
    let text = format!(in alloc;
        "serve {location} {listen} {name} {users} {sessions} {per_address} {revprops} {quiet} {exit_on_halt}"
    );
    text.expect(rt, "memory")
}

/// Gives an order as one text.
fn ordered(rt: &impl Abort, alloc: Global, order: &Order) -> String {
    let text = match order {
        Order::Create { folder, format } => {
            let number = format.number();
            format!(in alloc; "create {folder} {number}")
        }
        Order::Migrate { folder, new, quiet } => {
            format!(in alloc; "migrate {folder} {new} {quiet}")
        }
        Order::Stdio(session) => Ok(sole(rt, alloc, session)),
        Order::Serve(service) => Ok(served(rt, alloc, service)),
        Order::Status { address, name } => format!(in alloc; "status {address} {name}"),
        Order::Version => String::from_str(alloc, "version"),
    };
    text.expect(rt, "memory")
}

/// Says whether this text is what is asked for.
fn is_order(
    rt: &impl Abort,
    alloc: Global,
    read: &Result<Order, CommandLineFault>,
    wanted: &str,
) -> bool {
    match read {
        Ok(order) => ordered(rt, alloc, order).as_str() == wanted,
        Err(CommandLineFault::Help(_)) => wanted == "help",
        Err(CommandLineFault::Bad(_)) => wanted == "bad",
        Err(CommandLineFault::NoMemory) => false,
    }
}

/// Says whether this text is what a line asks for.
fn is_asked(rt: &impl Abort, alloc: Global, line: &str, wanted: &str) -> bool {
    is_order(rt, alloc, &read(rt, alloc, line), wanted)
}

static LINES: [(&str, &str); 28] = [
    ("svnserved stdio - --name r", "stdio in memory r false"),
    ("svnserved stdio --name=r -", "stdio in memory r false"),
    (
        "svnserved stdio - --name r --revprops",
        "stdio in memory r true",
    ),
    (
        "svnserved stdio --revprops --name=r -",
        "stdio in memory r true",
    ),
    ("svnserved stdio folder --name r", "stdio folder r false"),
    (
        "svnserved stdio folder --name r --tunnel-user alice",
        "stdio folder r false alice",
    ),
    (
        "svnserved stdio --tunnel-user=al,ice --revprops --name r -",
        "stdio in memory r true al,ice",
    ),
    ("svnserved create folder", "create folder 3"),
    ("svnserved create --format 2 folder", "create folder 2"),
    ("svnserved create folder --format=3", "create folder 3"),
    ("svnserved migrate folder copy", "migrate folder copy false"),
    (
        "svnserved migrate --quiet folder copy",
        "migrate folder copy true",
    ),
    (
        "svnserved serve - --listen 127.0.0.1:3690 --name r --users file",
        "serve in memory 127.0.0.1:3690 r file 16 16 false false false",
    ),
    (
        "svnserved serve - --listen 127.0.0.1:1 --listen=[::1]:2 --name r --users file",
        "serve in memory 127.0.0.1:1,[::1]:2 r file 16 16 false false false",
    ),
    (
        "svnserved serve --quiet --users=file --revprops --name=r --listen=0.0.0.0:1 folder",
        "serve folder 0.0.0.0:1 r file 16 16 true true false",
    ),
    (
        "svnserved serve folder --exit-on-halt --listen 127.0.0.1:1 --name r --users file",
        "serve folder 127.0.0.1:1 r file 16 16 false false true",
    ),
    (
        "svnserved serve - --listen 127.0.0.1:1 --per-address 4 --name r --users file",
        "serve in memory 127.0.0.1:1 r file 16 4 false false false",
    ),
    (
        "svnserved serve - --listen 127.0.0.1:1 --sessions 40 --name r --users file",
        "serve in memory 127.0.0.1:1 r file 40 40 false false false",
    ),
    (
        "svnserved serve - --listen 127.0.0.1:1 --per-address 1024 --sessions=1024 --name r --users file",
        "serve in memory 127.0.0.1:1 r file 1024 1024 false false false",
    ),
    (
        "svnserved serve - --listen 127.0.0.1:1 --sessions 1 --per-address 1 --name r --users file",
        "serve in memory 127.0.0.1:1 r file 1 1 false false false",
    ),
    (
        "svnserved status [::1]:3690 --name r",
        "status [::1]:3690 r",
    ),
    ("svnserved --help", "help"),
    ("svnserved create --help", "help"),
    ("svnserved migrate --help", "help"),
    ("svnserved serve --help", "help"),
    ("svnserved status --help", "help"),
    ("svnserved --version", "version"),
    ("svnserved -V", "version"),
];

#[test]
fn reads_what_is_asked_for(rt: HostRuntime) {
    let mut are_read = true;
    for (line, wanted) in LINES.iter() {
        are_read &= is_asked(&rt, rt.alloc(), line, wanted);
    }
    assert!(rt; are_read);
}

static OTHER_LINES: [&str; 55] = [
    "svnserved",
    "svnserved stdio",
    "svnserved stdio -",
    "svnserved stdio --name r",
    "svnserved stdio - --name r --name q",
    "svnserved stdio - --name r more",
    "svnserved stdio - --name r --revprops=true",
    "svnserved stdio - --name r --revprops --revprops",
    "svnserved stdio - --name r --quiet",
    "svnserved stdio - --revprops",
    "svnserved stdio - --name r --tunnel-user",
    "svnserved stdio - --name r --tunnel-user=",
    "svnserved serve - --listen 127.0.0.1:1 --name r --users file --tunnel-user alice",
    "svnserved create",
    "svnserved create -",
    "svnserved create ",
    "svnserved stdio  --name r",
    "svnserved create folder --name r",
    "svnserved create folder --format",
    "svnserved create folder --format 1",
    "svnserved create folder --format 4",
    "svnserved create folder --format 02",
    "svnserved create folder --format +2",
    "svnserved create folder --format two",
    "svnserved create folder --format ",
    "svnserved create folder --format 2 --format 2",
    "svnserved migrate",
    "svnserved migrate folder",
    "svnserved migrate - copy",
    "svnserved migrate folder -",
    "svnserved migrate  copy",
    "svnserved migrate folder ",
    "svnserved migrate folder copy more",
    "svnserved migrate folder copy --format 2",
    "svnserved serve - --name r --users file",
    "svnserved serve - --listen 127.0.0.1:1 --users file",
    "svnserved serve - --listen 127.0.0.1:1 --name r",
    "svnserved serve --listen 127.0.0.1:1 --name r --users file",
    "svnserved serve - --listen 127.0.0.1:1 --name r --users file --per-address 0",
    "svnserved serve - --listen 127.0.0.1:1 --name r --users file --per-address 17",
    "svnserved serve - --listen 127.0.0.1:1 --name r --users file --per-address many",
    "svnserved serve - --listen 127.0.0.1:1 --name r --users file --sessions 40 --per-address 41",
    "svnserved serve - --listen 127.0.0.1:1 --name r --users file --sessions 8 --per-address 16",
    "svnserved serve - --listen 127.0.0.1:1 --name r --users file --sessions 0",
    "svnserved serve - --listen 127.0.0.1:1 --name r --users file --sessions 1025",
    "svnserved serve - --listen 127.0.0.1:1 --name r --users file --sessions -1",
    "svnserved serve - --listen 127.0.0.1:1 --name r --users file --sessions many",
    "svnserved serve - --listen 127.0.0.1:1 --name r --users file --sessions ",
    "svnserved stdio - --name r --sessions 16",
    "svnserved status",
    "svnserved status --name r",
    "svnserved status 127.0.0.1:1",
    "svnserved other - --name r",
    "svnserved serve --version",
    "svnserved --version=1",
];

#[test]
fn refuses_other_lines(rt: HostRuntime) {
    let mut are_refused = true;
    for line in OTHER_LINES.iter() {
        are_refused &= is_asked(&rt, rt.alloc(), line, "bad");
    }
    assert!(rt; are_refused);
}
