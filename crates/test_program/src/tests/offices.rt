//! An office in a file from its first day on, and offices in memory.

use crate::tests::output::Taking;
use crate::tests::runs::{Given, begin, run_all, run_one, run_with};
use std::fs;
use std::net::{Ipv4Addr, TcpListener};
use std::test::Fail;

/// A policy, one whose rule counts until a day, and texts that are none.
static FILES: [(&str, &str); 5] = [
    ("o/policy.toml", "~policy~"),
    (
        "o/dated.toml",
        "version = 2\n\n[callers]\nanna = \"archivist\"\n\n~rule~allow\"\nrole = \"archivist\"\naction = \"*\"\ncollection = \"*\"\nclass = \"*\"\nlast = \"2024-03-01\"\n",
    ),
    ("o/other.toml", "version = 3\n"),
    ("o/torn.toml", "version = 1\n\n[callers\n"),
    (
        "o/caller.toml",
        "version = 1\n\n[callers]\nanna = \"clerk\"\nEve = \"clerk\"\n",
    ),
];

/// Runs that make no office.
static NOTHING_MADE: [&str; 16] = [
    "ask,o/office.db,2024-03-02|~maps~|Failed||~no office~o/office.db is not there\n",
    "replay,o/office.db|~records~|Failed||~no office~o/office.db is not there\n",
    "serve,--port,0,--count,1,o/office.db,2024-03-02||Failed||~no office~o/office.db is not there\n",
    "policy,o/office.db,o/other.toml||Refused|policy Y2\n|~Y2~",
    "replay,--policy,o/other.toml,o/office.db|~records~|Refused||policy Y2\n~Y2~depot: o/other.toml is no policy\n",
    // The line and the caller of a policy that is refused are named.
    "policy,o/office.db,o/torn.toml||Refused|policy Y1\n|~Y1~: line 3\n",
    "replay,--policy,o/torn.toml,o/office.db|~records~|Refused||policy Y1\n~Y1~: line 3\ndepot: o/torn.toml is no policy\n",
    "explain,o/torn.toml,anna,list,-,-||Refused|policy Y1\n|~Y1~: line 3\n",
    "policy,o/office.db,o/caller.toml||Refused|policy Y4\n|~Y4~: the caller Eve\n",
    "replay,--policy,o/caller.toml,o/office.db|~records~|Refused||policy Y4\n~Y4~: the caller Eve\ndepot: o/caller.toml is no policy\n",
    "explain,o/caller.toml,anna,list,-,-||Refused|policy Y4\n|~Y4~: the caller Eve\n",
    "policy,o/office.db,o/none.toml||Failed||~unread~o/none.toml~none~",
    "replay,--policy,o/none.toml,o/office.db|~records~|Failed||~unread~o/none.toml~none~",
    "policy,o/none/office.db,o/policy.toml||Failed||~unopened~o/none/office.db~none~",
    "ask,o/none/office.db,2024-03-02|~maps~|Failed||~no office~o/none/office.db is not there\n",
    "policy,o/policy.toml/office.db,o/policy.toml||Failed||store Q4\ndepot: cannot look at o/policy.toml/office.db: Not a directory (os error 20)\n",
];

/// An office that `policy` makes, run after run.
static MADE: [&str; 4] = [
    "policy,o/office.db,o/policy.toml||Accepted|~installed~|",
    "replay,o/office.db|~records~|Accepted|~answers~|",
    "ask,o/office.db,2024-03-02|~maps~|Accepted|~maps made~|",
    // What comes before a record that is none is answered.
    "replay,o/office.db|~torn records~|Refused|~one answer~|record 2\ndepot: record 2 of the input is malformed\n",
];

/// Policies that are refused.
static REFUSED: [&str; 2] = [
    "policy,o/office.db,o/other.toml||Refused|policy Y2\n|~Y2~",
    "replay,--policy,o/other.toml,o/office.db|~records~|Refused||policy Y2\n~Y2~depot: o/other.toml is no policy\n",
];

/// What the installed policy allows.
static ALLOWED: &str = "ask,o/office.db,2024-03-02|~maps~|Accepted|~maps made~|";

/// A request whose last byte does not come, as the input fails.
static INPUT_FAILS: &str =
    "ask,o/office.db,2024-03-01|~maps~|Failed||device\ndepot: cannot read standard input: broken pipe\n";

/// Records, where standard output takes nothing.
static OUTPUT_FAILS: &str =
    "replay,--policy,o/policy.toml,o/office.db|~days~|Failed||device\ndepot: cannot write standard output: write zero\n";

/// The office goes on, others are made, and one is served.
static GOES_ON: [&str; 18] = [
    "replay,o/office.db|~days~|Accepted|~days answered~|",
    // What was written is there in the next run. The second deposit is in a collection of which nothing
    // may be destroyed.
    "replay,o/office.db|~due~|Accepted|ANS 125\n~ok~35~close~{\"day\":\"2024-03-05\",\"deposits\":[1]}\n|",
    "policy,o/office.db,o/policy.toml||Accepted|~installed~|",
    // An office that a replay makes, after its policy.
    "replay,--policy,o/policy.toml,o/replayed.db|~records~|Accepted|~answers~|",
    "ask,o/replayed.db,2024-03-02|~maps~|Accepted|~maps made~|",
    // A new office in memory each time.
    "ask,:memory:,2024-03-01|~maps~|Accepted|~denied~|",
    "policy,:memory:,o/policy.toml||Accepted|~installed~|",
    "replay,:memory:|~one record~\n|Accepted|~one answer~|",
    "replay,:memory:|~torn records~|Refused|~one answer~|record 2\ndepot: record 2 of the input is malformed\n",
    "replay,--policy,o/policy.toml,:memory:|~records~|Accepted|~answers~|",
    "replay,--policy=o/other.toml,--,:memory:|~records~|Refused||policy Y2\n~Y2~depot: o/other.toml is no policy\n",
    "serve,--port,0,--count,1,:memory:,2024-03-01|~maps~|Accepted|~denied~#|depot: serving ended after the connections that were asked for: 1\n",
    // A rule decides on its days, and on no other.
    "policy,o/dated.db,o/dated.toml||Accepted|installed 1 rules 1 callers\n|",
    "ask,o/dated.db,2024-03-01|~maps~|Accepted|~maps made~|",
    "ask,o/dated.db,2024-03-02|~maps~|Accepted|~denied~|",
    // An office that is served to peers, and what they wrote in the run that follows.
    "policy,o/served.db,o/policy.toml||Accepted|~installed~|",
    "serve,--port,0,--count,5,o/served.db,2024-03-01|~asks~#~maps~#~y1~#POST /deposits?collection=maps&class=y1&accession=A-1~closed~#GET /deposits~anna~|Accepted|~no such~#~maps made~#~y1 made~#~deposited~1}#~ok~165~close~{\"deposits\":[{\"accession\":\"A-1\",\"bytes\":3,\"class\":\"y1~shown~maps\",\"deposit\":1,\"deposited\":\"2024-03-01\",\"due\":\"2025-02-28\",\"files\":1}]}#|depot: serving ended after the connections that were asked for: 5\n",
    "ask,o/served.db,2024-03-02|GET /deposits/1/bag~anna~|Accepted|HTTP/1.1 200 OK\r\nContent-Type: application/octet-stream\r\nContent-Length: 210~close~~bag~|",
];

/// A request whose bytes are all there, where the input fails after them.
static INPUT_ENDS: &str = "ask,o/replayed.db,2024-03-01|~asks~|Accepted|~no such~|";

/// Serves on a port that another listener has.
fn run_at_taken_port(rt: &HostRuntime) -> Result<(), Fail> {
    let listener = TcpListener::bind(rt, (Ipv4Addr::LOCALHOST, 0))?;
    let port = listener.local_addr()?.port();
    let text = format!(in rt.alloc();
        "serve,--port,{port},--count,1,o/served.db,2024-03-01||Failed||device\ndepot: cannot listen on 127.0.0.1:{port}: Address already in use (os error 98)\n"
    )?;
    run_one(rt, text.as_str())
}

/// A policy that is refused leaves the office as it was, and the installed policy.
fn refuse_policies(rt: &HostRuntime) -> Result<(), Fail> {
    let office = fs::read(rt, "o/office.db")?;
    run_all(rt, &REFUSED)?;
    if fs::read(rt, "o/office.db")?.as_slice() != office.as_slice() {
        return Err("the office is written".into());
    }
    run_one(rt, ALLOWED)
}

#[test]
fn offices_in_files_and_in_memory(rt: HostRuntime) -> Result<(), Fail> {
    begin(&rt, "o", &FILES)?;
    run_all(&rt, &NOTHING_MADE)?;
    assert!(rt; !fs::exists(&rt, "o/office.db")?);
    assert!(rt; !fs::exists(&rt, "o/none")?);
    run_all(&rt, &MADE)?;
    refuse_policies(&rt)?;
    let given = Given::new(b"");
    run_with(&rt, INPUT_FAILS, &Given { gives: 53, ..given })?;
    let mute = Given {
        output: Taking::Nothing,
        ..given
    };
    run_with(&rt, OUTPUT_FAILS, &mute)?;
    run_all(&rt, &GOES_ON)?;
    run_with(&rt, INPUT_ENDS, &Given { gives: 52, ..given })?;
    run_at_taken_port(&rt)?;
    fs::remove_dir_all(&rt, "o")?;
    Ok(())
}
