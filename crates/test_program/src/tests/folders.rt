//! `pack` and `unpack`, refusals in words, and files that can't be read.

use crate::tests::runs::{begin, run_all};
use crate::tests::texts::meant;
use crate::tests::words::FAULTS;
use std::fs;
use std::fs::File;
use std::os::unix::fs::symlink;
use std::test::Fail;

/// A bag, folders that are none, and other files. Two of them get the length of what is too long.
static FILES: [(&str, &str); 11] = [
    ("t/bag/data/a", "abc"),
    ("t/bag/bagit.txt", "~declared~"),
    ("t/bag/manifest-sha256.txt", "~listed~"),
    ("t/large/a", ""),
    ("t/large/a b", ""),
    ("t/whole/a", ""),
    ("t/clash/data", ""),
    ("t/linked/a", ""),
    ("t/plain/a", "abc"),
    ("t/zip", "PK\x03\x04"),
    ("t/policy", "version = 1\n"),
];

static RUNS: [&str; 23] = [
    // A folder becomes a form, and a folder again.
    "pack,t/bag,t/bag.bagset||Accepted|packed 3 files 210 bytes\n|",
    "check,t/bag.bagset||Accepted|valid 1.0 files 1 bytes 3 manifests 1\n|",
    "unpack,t/bag.bagset,t/copy||Accepted|unpacked 3 files\n|",
    "pack,t/copy,t/copy.bagset||Accepted|packed 3 files 210 bytes\n|",
    "unpack,t/bag.bagset,t/copy||Refused|exists\n|something has the name of the folder already, so nothing was unpacked\n",
    // One that is no bag is packed all the same.
    "pack,t/plain,t/plain.bagset||Accepted|packed 1 files 27 bytes\n|the folder has no bagit.txt, so what was packed is no bag yet\n",
    // Refusals in words.
    "unpack,t/bag/data/a,t/none||Refused|unreadable S1\n|~S1~",
    "pack,t/linked,t/form||Refused|unpackable NAME\n|the entry b of the folder is neither a file nor a folder, such as a link (NAME)\n",
    "pack,t/large,t/form||Refused|unpackable S2 1\n|a%20b has more than 16,777,216 bytes, the most that a file of a bag may have (S2)\n",
    "pack,t/clash,t/form||Refused|unpackable S8\n|a path of the folder is data, or names both a file and a folder (S8)\n",
    "pack,t/whole,t/form||Refused|unpackable SIZE\n|the form of the folder is longer than 16,777,216 bytes, the most that is written (SIZE)\n",
    "unpack,t/zip,t/none||Refused|unreadable S1\n|~zip~",
    "unpack,t/large/a b,t/none||Refused|unreadable SIZE\n|the form is longer than 16,777,216 bytes, the most that is judged (SIZE)\n",
    "check,t/zip||Refused|unreadable S1\n|~zip~",
    "check,-|BAGSET 1\nEND\n|Refused|invalid B1\n|the bag has no bagit.txt (B1)\n",
    "explain,t/policy,eve,list,-,-||Refused|deny default\n|the caller eve is not in the policy, and has the role stranger\nno rule of the policy matches, so it is denied by default\n",
    "explain,t/zip,eve,list,-,-||Refused|policy Y1\n|the policy is no text in TOML (Y1): line 1\n",
    // What can't be read.
    "pack,t/no such folder,t/form||Failed||device\ndepot: cannot list t/no%20such%20folder~none~",
    "check,t/none||Failed||~unread~t/none~none~",
    "check,t||Failed||~unread~t: this is a folder; a bag's transfer form is wanted, which depot pack makes of it\n",
    "unpack,t,t/copy||Failed||~unread~t: this is a folder; a bag's transfer form is wanted, which depot pack makes of it\n",
    "explain,t/a policy,eve,list,-,-||Failed||~unread~t/a%20policy~none~",
    "explain,t,eve,list,-,-||Failed||~unread~t: Is a directory (os error 21)\n",
];

#[test]
fn words_and_folders(rt: HostRuntime) -> Result<(), Fail> {
    begin(&rt, "t", &FILES)?;
    File::create(&rt, "t/large/a b")?.set_len(16_777_217)?;
    File::create(&rt, "t/whole/a")?.set_len(16_777_216)?;
    symlink(&rt, "a", "t/linked/b")?;
    run_all(&rt, &FAULTS)?;
    run_all(&rt, &RUNS)?;
    let bag = meant(rt.alloc(), "~bag~")?;
    assert!(rt; fs::read(&rt, "t/bag.bagset")?.as_slice() == bag.as_bytes());
    assert!(rt; fs::read(&rt, "t/copy.bagset")?.as_slice() == bag.as_bytes());
    fs::remove_dir_all(&rt, "t")?;
    Ok(())
}
