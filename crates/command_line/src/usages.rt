//! How each subcommand is used, as `--help` says it.

ghost use Rattle.std.specs.Prelude.{◌≡◌};
ghost use Rattle.command_line.specs.CommandBuilding.{rules_for};
ghost use Rattle.command_line.specs.Lines.{name_text, subcommand_rules};

use crate::subcommand::Subcommand;
use crate::words::{Argument, Usage};

const STORE: Argument<'static> = Argument {
    name: "STORE",
    option: None,
    is_required: true,
    help: "the file of the office",
};

const STORE_OR_MEMORY: Argument<'static> = Argument {
    name: "STORE",
    option: None,
    is_required: true,
    help: "the file of the office, or :memory: for a new one in memory",
};

const DAY: Argument<'static> = Argument {
    name: "DAY",
    option: None,
    is_required: true,
    help: "the day, such as 2024-03-01",
};

static CHECK: Usage<'static> = Usage {
    name: "check",
    about: "Says whether a bag is valid, or its first fault.",
    arguments: &[Argument {
        name: "FILE",
        option: None,
        is_required: true,
        help: "the transfer form of the bag, or - for standard input",
    }],
};

static PACK: Usage<'static> = Usage {
    name: "pack",
    about: "Writes the transfer form of all files in a folder.",
    arguments: &[
        Argument {
            name: "DIR",
            option: None,
            is_required: true,
            help: "the folder of the bag",
        },
        Argument {
            name: "FILE",
            option: None,
            is_required: true,
            help: "the file that gets the form",
        },
    ],
};

static UNPACK: Usage<'static> = Usage {
    name: "unpack",
    about: "Makes a folder with the files of a transfer form.",
    arguments: &[
        Argument {
            name: "FILE",
            option: None,
            is_required: true,
            help: "the transfer form of the bag",
        },
        Argument {
            name: "DIR",
            option: None,
            is_required: true,
            help: "the folder to be made, which isn't there yet",
        },
    ],
};

static EXPLAIN: Usage<'static> = Usage {
    name: "explain",
    about: "Says what a policy allows, and which of its rules decides.",
    arguments: &[
        Argument {
            name: "DAY",
            option: Some("day"),
            is_required: false,
            help: "the day of the question, such as 2024-03-01; a policy of version 2 needs one",
        },
        Argument {
            name: "POLICY",
            option: None,
            is_required: true,
            help: "the file of the policy",
        },
        Argument {
            name: "CALLER",
            option: None,
            is_required: true,
            help: "who asks, any text",
        },
        Argument {
            name: "ACTION",
            option: None,
            is_required: true,
            help: "what is asked for, such as list or dispose",
        },
        Argument {
            name: "COLLECTION",
            option: None,
            is_required: true,
            help: "the name of a collection, or - for none",
        },
        Argument {
            name: "CLASS",
            option: None,
            is_required: true,
            help: "the name of a retention class, or - for none",
        },
    ],
};

static POLICY: Usage<'static> = Usage {
    name: "policy",
    about: "Installs a policy, and makes the office first where there is none.",
    arguments: &[
        STORE,
        Argument {
            name: "POLICY",
            option: None,
            is_required: true,
            help: "the file of the policy",
        },
    ],
};

static ASK: Usage<'static> = Usage {
    name: "ask",
    about: "Answers one request, an HTTP request on standard input.",
    arguments: &[STORE_OR_MEMORY, DAY],
};

static REPLAY: Usage<'static> = Usage {
    name: "replay",
    about: "Answers the request records on standard input.",
    arguments: &[
        Argument {
            name: "POLICY",
            option: Some("policy"),
            is_required: false,
            help: "the file of a policy to be installed first",
        },
        STORE_OR_MEMORY,
    ],
};

static SERVE: Usage<'static> = Usage {
    name: "serve",
    about: "Serves HTTP connections on 127.0.0.1, one after the other.",
    arguments: &[
        Argument {
            name: "P",
            option: Some("port"),
            is_required: true,
            help: "the port, 0 to 65535; with 0 the machine picks one",
        },
        Argument {
            name: "N",
            option: Some("count"),
            is_required: true,
            help: "the number of connections, 1 to 1000000",
        },
        STORE_OR_MEMORY,
        DAY,
    ],
};

impl Subcommand {
    /// How it is used.
    pub fn usage(self) -> &'static Usage<'static>
        ensures name { result.now.name.now ≡ name_text self }
        ensures rules { rules_for result.now.arguments.now ≡ subcommand_rules self }
    {
        match self {
            Subcommand::Check => &CHECK,
            Subcommand::Pack => &PACK,
            Subcommand::Unpack => &UNPACK,
            Subcommand::Explain => &EXPLAIN,
            Subcommand::Policy => &POLICY,
            Subcommand::Ask => &ASK,
            Subcommand::Replay => &REPLAY,
            Subcommand::Serve => &SERVE,
        }
    }
}
