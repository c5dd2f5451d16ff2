//! Texts with marks, which are short for what many cases share and for bytes that a line can't show.

ghost use Rattle.std.specs.Prelude.{◌≡◌, ℕ, List, IfOk, map, string_bytes};
ghost use Rattle.test_bags.specs.Marks.{byte_meant, all_marks, texts, Means};

use std::alloc::{AllocError, Global};

/// A mark and what it means, in which later marks may occur. Bag A is `data/a` with `abc`, declared in
/// version 1.0 and listed by sha256; `{tool}` and `{tool-end}` are a bag as the usual Python tool writes it,
/// without a digit between them. The last marks are of bytes, two of which no text has.
static MARKS: [(&str, &str); 56] = [
    (
        "{tool}",
        r"BAGSET 1\nFILE 12 217\nbag-info.txtBag-Software-Agent: bagit.py v1.8.1 <https://bagit.example/python>\nBagging-Date: 2024-02-29\nExternal-Description: Letters to the harbour office, 1901 to 1911:\n  box 1 holds A to K,\n\tbox 2 the rest.\nPayload-Oxum: 13.2\n\n{declared-0.97}FILE 18 10\ndata/letters/1.txtDear Sir,\n\nFILE 14 3\ndata/map 1.txtabc\nFILE 19 166\nmanifest-sha256.txt69eee4684424191328b287c6a319d84f360f3134cad23355cd2b227687efc5fe  data/letters/1.txt\n{abc}  data/map 1.txt\n\nFILE 19 294\nmanifest-sha512.txt7efefe3c9f75daa440a1154b64dd99867c534f7ad04932523a51a0ba72b469ef0f85e3d51654cd37eeaa94c24f08f8092e6f20e6eb2200bc57c2a57c45cfa58b  data/letters/1.txt\n{abc-512}  data/map 1.txt\n\nFILE 22 323\ntagmanifest-sha256.txt9c910ae4b9c9a5efd9aa49911253de1cc0ce8dd1d04b018b0e3c0c04dd2a5705 manifest-sha512.txt\n1764986dcffae672992625d323b1ae289258cd659075cc00140391f102475a7b bag-info.txt\ne91f941be5973ff71f1dccbdd1a32d598881893a7f21be516aca743da38b1689 bagit.txt\n1ad324d32106df6b6670b326ce2ea70b1f003f11359c8c8e41bc93f220f5a9bc manifest-sha256.txt\n\nFILE 22 579\ntagmanifest-sha512.txt1ae9bba60d79b6637a4be1d7d89d7e7d9aa2ec0bb5cdd38b4acd487578652d9c1a024f3962167ae7830edbcee1cdfbfa113e037a0a860caa0b9e99ea21648735 manifest-sha512.txt\n2bd8048f759b019634545bba7286cb11575ac429954e0ae79727e4f245e4333966ce549fe9dd005e951cb2381bce426f10955b486886b58fc42901b5252f818",
    ),
    (
        "{tool-end}",
        r" bag-info.txt\n418dcfbe17d5f4b454b18630be795462cf7da4ceb6313afa49451aa2568e41f7ca3d34cf0280c7d056dc5681a70c37586aa1755620520b9198eede905ba2d0f6 bagit.txt\n67bcc493b4e7d1725f632058815ec265d78507269f8ecad9d483aa733c164d1f6748ddd0d13636bc4ca969c9cf1cce06c4773978f0663015e4cd23f563b6d4a3 manifest-sha256.txt\n\nEND\n",
    ),
    ("{bag}", r"{declared}{payload}{listed}END\n"),
    (
        "{declared}",
        r"FILE 9 54\nbagit.txtBagIt-Version: 1.0\nTag-File-Character-Encoding: UTF-8\n\n",
    ),
    (
        "{declared-0.97}",
        r"FILE 9 55\nbagit.txtBagIt-Version: 0.97\nTag-File-Character-Encoding: UTF-8\n\n",
    ),
    ("{payload}", r"FILE 6 3\ndata/aabc\n"),
    (
        "{listed}",
        r"FILE 19 73\nmanifest-sha256.txt{abc}  data/a\n\n",
    ),
    (
        "{mislisted}",
        r"FILE 19 73\nmanifest-sha256.txtba7816bf8f01cfea414140de5dae2223b00361a396177a9cb410ff61f20015ae  data/a\n\n",
    ),
    ("{b}", r"FILE 6 0\ndata/b\n"),
    ("{fetch}", r"FILE 9 0\nfetch.txt\n"),
    ("{md5}", r"FILE 16 0\nmanifest-md5.txt\n"),
    ("{tags-md5}", r"FILE 19 0\ntagmanifest-md5.txt\n"),
    ("{strange}", r"FILE 21 3\ndata/ a\n\r%\t{del}é📘~! abc\n"),
    (
        "{strange-listed}",
        r"FILE 19 94\nmanifest-sha256.txt{abc}  data/ a%0A%0d%25\t{del}é📘~! \n\n",
    ),
    (
        "{strange-said}",
        "data/%20a%0A%0D%25%09%7F%C3%A9%F0%9F%93%98~!%20",
    ),
    (
        "{abc}",
        "ba7816bf8f01cfea414140de5dae2223b00361a396177a9cb410ff61f20015ad",
    ),
    (
        "{nothing}",
        "e3b0c44298fc1c149afbf4c8996fb92427ae41e4649b934ca495991b7852b855",
    ),
    (
        "{nothing-512}",
        "cf83e1357eefb8bdf1542850d66d8007d620e4050b5715dc83f4a921d36ce9ce47d0d13c5d85f2b0ff8318d2877eec2f63b931bd47417a81a538327af927da3e",
    ),
    (
        "{abc-512}",
        "ddaf35a193617abacc417349ae20413112e6fa4e89a97ea20a9eeee64b55d39a2192992a274fc1a836ba3c23a3feebbd454d4423643ce80e2a9ac94fa54ca49f",
    ),
    (
        "{manifest}",
        "229b690bb74c455dcf323fbf029f56af1d20b126231aa2b2047923926e7d99fe",
    ),
    (
        "{declaration}",
        "1712ecfb074bf29c4188ad3421032509159a09739fd604f8fe57038b4ddefcc9",
    ),
    (
        "{no-form}",
        r"this is no transfer form: it does not begin with the line BAGSET 1 (S1)\n",
    ),
    (
        "{wanted}",
        r"; a bag's transfer form is wanted, which depot pack makes of a folder\n",
    ),
    (
        "{no-path}",
        r"the entry at byte 9 has no good path: it is not UTF-8, has a NUL, or has a segment that is empty, . or .. (S5)\n",
    ),
    (
        "{stranger}",
        r" is not in the policy, and has the role stranger\n",
    ),
    (
        "{no-rule}",
        " of the policy is not well formed: it is effect, role, action, collection and class, each with a value that it may have, and under version 2 it may have first and last, days of which first is not after last (Y5)",
    ),
    (
        "{policy}",
        r"version = 1\n\n{callers}{rule-tax}\n{rule-archivist}\n{rule-clerk}",
    ),
    (
        "{policy-2}",
        r#"version = 2\n\n{callers}{rule-tax}last = "2024-12-31"\n\n{rule-archivist}\n{rule-clerk}"#,
    ),
    (
        "{callers}",
        r#"[callers]\nanna = "archivist"\ncarl = "clerk"\n\n"#,
    ),
    (
        "{rule-tax}",
        r#"[[rule]]\neffect = "deny"\nrole = "archivist"\naction = "dispose"\ncollection = "tax"\nclass = "*"\n"#,
    ),
    (
        "{rule-archivist}",
        r#"[[rule]]\neffect = "allow"\nrole = "archivist"\naction = "*"\ncollection = "*"\nclass = "*"\n"#,
    ),
    (
        "{rule-clerk}",
        r#"[[rule]]\neffect = "allow"\nrole = "clerk"\naction = "list"\ncollection = "*"\nclass = "y10"\n"#,
    ),
    (
        "{line-end}",
        "in this path %0A or %0D is the end of a line{listed-so}",
    ),
    ("{percent}", "in this path %25 is a percent sign{listed-so}"),
    (
        "{both}",
        "in this path %0A or %0D is the end of a line, and %25 a percent sign{listed-so}",
    ),
    (
        "{listed-so}",
        r"; version 1.0 lists %0A, %0D and %25 of a name as %250A, %250D and %2525, and version 0.97 cannot list %0A or %0D\n",
    ),
    (
        "{denied-tax}",
        "rule 1 of the policy denies it: role archivist, action dispose, collection tax, any class",
    ),
    (
        "{denied-all}",
        r"rule 1 of the policy denies it: any role, any action, any collection, any class\n",
    ),
    (
        "{undecided}",
        r"no rule of the policy matches, so it is denied by default\n",
    ),
    ("{long}", "{205}{205}{205}{205}{205}"),
    ("{205}", "{41}{41}{41}{41}{41}"),
    ("{41}", "aaaaaaaaaaaaaaaaaaaaaaaaaaaaaaaaaaaaaaaaa"),
    (
        "{no-day}",
        r"the option --day DAY is missing: the policy has version 2, in which rules may count on certain days alone\n",
    ),
    (
        "{strangers}",
        r#"version = 1\n\n[callers]\nbert = "stranger"\n\n[[rule]]\neffect = "deny"\nrole = "stranger"\naction = "download"\ncollection = "-"\nclass = "*"\n\n[[rule]]\neffect = "allow"\nrole = "stranger"\naction = "download"\ncollection = "*"\nclass = "*"\n"#,
    ),
    (
        "{uses}",
        r"depot {version}\nUsage: depot check FILE\n       depot pack DIR FILE\n       depot unpack FILE DIR\n       depot explain [--day DAY] POLICY CALLER ACTION COLLECTION CLASS\n       depot policy STORE POLICY\n       depot ask STORE DAY\n       depot replay [--policy POLICY] STORE\n       depot serve --port P --count N STORE DAY\n\nDepot checks and keeps BagIt bags, serves them by a policy, and destroys them when due.\ndepot COMMAND --help says what each command takes.\n",
    ),
    ("{ff}", "\u{1}"),
    ("{bom}", "\u{feff}"),
    ("{nbsp}", "\u{a0}"),
    ("{del}", "\u{7f}"),
    ("{nul}", "\0"),
    ("{accent}", "\u{301}"),
    ("{zip}", "PK\u{3}\u{4}\u{14}\0"),
    ("{gzip}", "\u{1f}\u{2}\u{8}\0"),
    ("\\n", "\n"),
    ("\\r", "\r"),
    ("\\t", "\t"),
];

/// A text with what its marks mean.
pub fn text_of(alloc: Global, marked: &str) -> Result<String, AllocError>
    ensures { IfOk result (λ text. Means all_marks marked.now (string_bytes text)) }
{
    with_meanings(alloc, &MARKS, marked)
}

/// A text with what these marks mean.
fn with_meanings(alloc: Global, marks: &[(&str, &str)], marked: &str) -> Result<String, AllocError>
    ensures { IfOk result (λ text. Means (texts marks.now) marked.now (string_bytes text)) }
{
    let mut text = String::from_str(alloc, marked)?;
    for (mark, meaning) in marks {
        text = text.replace(alloc, *mark, meaning)?;
    }
    Ok(text)
}

/// The byte that a byte of a text with marks stands for.
fn byte_of(byte: u8) -> u8
    ensures { result ≡ byte_meant byte }
{
    match byte {
        1 => 0xFF,
        2 => 0x8B,
        other => other,
    }
}

/// The bytes of a text with marks.
pub fn bytes_of(alloc: Global, marked: &str) -> Result<Vec<u8>, AllocError>
    ensures { IfOk result (λ bytes.
        (text : List ℕ) × Means all_marks marked.now text × (bytes.items ≡ map byte_meant text)) }
{
    let text = text_of(alloc, marked)?;
    text.as_bytes()
        .iter()
        .map(|byte| byte_of(*byte))
        .collect(alloc)
}
