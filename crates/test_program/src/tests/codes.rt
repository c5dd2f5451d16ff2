//! Small bags, and texts that are no form, with what `check` says of each: every fault code that
//! it can print but S6, and each once in words.
//!
//! A row is what is handed in, the line that is printed, and for one row of each code what standard
//! error is told, with marks. A line that is no row says what the rows below it are about.

/// The declaration, and the files of a bag.
pub(crate) static DECLARATIONS: &str = r"
# Bag A; of version 0.97, with its digest in capitals; and with other line ends.
BAGSET 1\n{bag} => valid 1.0 files 1 bytes 3 manifests 1\n
BAGSET 1\n{declared-0.97}{payload}FILE 19 73\nmanifest-sha256.txtBA7816BF8F01CFEA414140DE5DAE2223B00361A396177A9CB410FF61F20015AD  data/a\n\nEND\n => valid 0.97 files 1 bytes 3 manifests 1\n
BAGSET 1\nFILE 9 54\nbagit.txtBagIt-Version: 1.0\rTag-File-Character-Encoding: UTF-8\r\n{payload}FILE 19 72\nmanifest-sha256.txt{abc}  data/a\nEND\n => valid 1.0 files 1 bytes 3 manifests 1\n
# The declaration: each fault, and those that stand before others.
BAGSET 1\n{payload}{listed}END\n => invalid B1\n => the bag has no bagit.txt (B1)\n
BAGSET 1\n{fetch}{md5}END\n => invalid B1\n
BAGSET 1\nEND\n => invalid B1\n
BAGSET 1\nFILE 9 50\nbagit.txtBagIt-Version: 1.0\nTag-File-Character-Encoding: {ff}\n\n{payload}{listed}END\n => invalid B2 V1\n => bagit.txt is not UTF-8 text (B2 V1)\n
BAGSET 1\nFILE 9 5\nbagit.txt{bom}{ff}\n\n{payload}{listed}END\n => invalid B2 V1\n
BAGSET 1\nFILE 9 57\nbagit.txt{bom}BagIt-Version: 1.0\nTag-File-Character-Encoding: UTF-8\n\n{payload}{listed}END\n => invalid B2 V2\n => bagit.txt begins with a byte order mark, and must not (B2 V2)\n
BAGSET 1\nFILE 9 3\nbagit.txt{bom}\n{payload}{listed}END\n => invalid B2 V2\n
BAGSET 1\nFILE 9 55\nbagit.txtBagIt-Version: 1.0\nTag-File-Character-Encoding: UTF-8\n\n\n{payload}{listed}END\n => invalid B2 V3\n => bagit.txt does not have exactly two lines (B2 V3)\n
BAGSET 1\nFILE 9 17\nbagit.txtBagIt-Version: x\n\n{payload}{listed}END\n => invalid B2 V3\n
BAGSET 1\nFILE 9 0\nbagit.txt\n{payload}{listed}END\n => invalid B2 V3\n
BAGSET 1\nFILE 9 54\nbagit.txtBagit-Version: 1.0\nTag-File-Character-Encoding: UTF-8\n\n{payload}{listed}END\n => invalid B2 V4\n => the first line of bagit.txt is not BagIt-Version: and a version such as 1.0 (B2 V4)\n
BAGSET 1\nFILE 9 53\nbagit.txtBagIt-Version: 1.\nTag-File-Character-Encoding: UTF-8\n\n{payload}{listed}END\n => invalid B2 V4\n
BAGSET 1\nFILE 9 36\nbagit.txtBagIt-Version: v1.0\nEncoding: UTF-8\n\n{payload}{listed}END\n => invalid B2 V4\n
BAGSET 1\nFILE 9 54\nbagit.txtBagIt-Version: 1.1\nTag-File-Character-Encoding: UTF-8\n\n{payload}{listed}END\n => invalid B2 V5\n => bagit.txt declares a version other than 1.0 and 0.97 (B2 V5)\n
BAGSET 1\nFILE 9 56\nbagit.txtBagIt-Version: 01.0\nTag-File-Character-Encoding: UTF-16\n\n{payload}{listed}END\n => invalid B2 V5\n
BAGSET 1\nFILE 9 36\nbagit.txtBagIt-Version: 0.96\nEncoding: UTF-8\n\n{payload}{listed}END\n => invalid B2 V5\n
BAGSET 1\nFILE 9 35\nbagit.txtBagIt-Version: 1.0\nEncoding: UTF-8\n\n{payload}{listed}END\n => invalid B2 V6\n => the second line of bagit.txt is not Tag-File-Character-Encoding: and an encoding (B2 V6)\n
BAGSET 1\nFILE 9 50\nbagit.txtBagIt-Version: 1.0\nTag-File-Character-Encoding: \t\n\n{payload}{listed}END\n => invalid B2 V6\n
BAGSET 1\nFILE 9 55\nbagit.txtBagIt-Version: 1.0\nTag-File-Character-Encoding: UTF-16\n\n{payload}{listed}END\n => invalid B2 V7\n => bagit.txt declares an encoding other than UTF-8 (B2 V7)\n
BAGSET 1\nFILE 9 55\nbagit.txtBagIt-Version: 1.0\nTag-File-Character-Encoding: UTF-16\n\n{fetch}END\n => invalid B2 V7\n
# Files and names of manifests; of both kinds the least name.
BAGSET 1\n{declared}{payload}{fetch}{listed}END\n => invalid B3\n => the bag has a fetch.txt, and a bag must hold all its files itself (B3)\n
BAGSET 1\n{declared}{fetch}{md5}END\n => invalid B3\n
BAGSET 1\n{declared}{payload}{fetch}FILE 19 0\nmanifest-sha512.txt\nEND\n => invalid B3\n
BAGSET 1\n{declared}{payload}{md5}END\n => invalid B4 manifest-md5.txt\n
BAGSET 1\n{declared}{payload}{md5}{listed}END\n => invalid B4 manifest-md5.txt\n => manifest-md5.txt is of an algorithm other than sha256 and sha512 (B4)\n
BAGSET 1\n{declared}{payload}{listed}{tags-md5}END\n => invalid B4 tagmanifest-md5.txt\n
BAGSET 1\n{declared}FILE 19 0\nmanifest-SHA256.txt\n{md5}{tags-md5}END\n => invalid B4 manifest-SHA256.txt\n
BAGSET 1\n{declared}FILE 17 0\nmanifest-m d%.txt\nEND\n => invalid B4 manifest-m%20d%25.txt\n => manifest-m%20d%25.txt is of an algorithm other than sha256 and sha512 (B4)\n
BAGSET 1\n{declared}{payload}END\n => invalid B5\n => the bag has neither manifest-sha256.txt nor manifest-sha512.txt (B5)\n
BAGSET 1\n{declared}{payload}FILE 3 0\ntag\nEND\n => invalid B5\n
BAGSET 1\n{declared}{payload}FILE 13 0\nmanifest-.txt\nFILE 22 1\ntagmanifest-sha256.txt?\nEND\n => invalid B5\n
";

/// Manifests and what they list.
pub(crate) static MANIFESTS: &str = r"
# The lines of a manifest.
BAGSET 1\n{declared}{payload}FILE 19 74\nmanifest-sha256.txt{abc}  data/a{ff}\n\nEND\n => invalid B6 manifest-sha256.txt L1\n => manifest-sha256.txt is not UTF-8 text (B6 L1)\n
BAGSET 1\n{declared}{payload}FILE 19 5\nmanifest-sha256.txt{bom}{ff}\n\nEND\n => invalid B6 manifest-sha256.txt L1\n
BAGSET 1\n{declared}{payload}FILE 19 76\nmanifest-sha256.txt{bom}{abc}  data/a\n\nEND\n => invalid B6 manifest-sha256.txt L2\n => manifest-sha256.txt begins with a byte order mark, and must not (B6 L2)\n
BAGSET 1\n{declared}{payload}FILE 19 5\nmanifest-sha256.txt{bom}?\n\nEND\n => invalid B6 manifest-sha256.txt L2\n
# A digit less, a digit more, a blank in front; lines that are skipped count, and CRLF is one end.
BAGSET 1\n{declared}{payload}FILE 19 139\nmanifest-sha256.txt{abc}  data/a\na7816bf8f01cfea414140de5dae2223b00361a396177a9cb410ff61f20015ad *\n\nEND\n => invalid B6 manifest-sha256.txt L3 2\n => line 2 of manifest-sha256.txt does not begin with a checksum of the right number of hex digits (B6 L3)\n
BAGSET 1\n{declared}{payload}FILE 19 74\nmanifest-sha256.txt0{abc}  data/a\n\nEND\n => invalid B6 manifest-sha256.txt L3 1\n
BAGSET 1\n{declared}{payload}FILE 19 74\nmanifest-sha256.txt {abc}  data/a\n\nEND\n => invalid B6 manifest-sha256.txt L3 1\n
BAGSET 1\n{declared}{payload}FILE 19 81\nmanifest-sha256.txt\r\n\r \t\n#\n{abc}  data/a\n\nEND\n => invalid B6 manifest-sha256.txt L3 4\n
BAGSET 1\n{declared}{payload}FILE 19 64\nmanifest-sha256.txt{abc}\nEND\n => invalid B6 manifest-sha256.txt L4 1\n => line 1 of manifest-sha256.txt has no path after its checksum (B6 L4)\n
BAGSET 1\n{declared}{payload}FILE 19 140\nmanifest-sha256.txt{abc} data/a\n{abc} \t \n\nEND\n => invalid B6 manifest-sha256.txt L4 2\n
# What sha256sum writes otherwise.
BAGSET 1\n{declared}{payload}FILE 19 83\nmanifest-sha256.txtSHA256 (data/a) = {abc}\n\nEND\n => invalid B6 manifest-sha256.txt L3 1\n => line 1 of manifest-sha256.txt is as sha256sum or sha512sum writes it with --tag; a manifest has the checksum first, then blanks and the path (B6 L3)\n
BAGSET 1\n{declared}{payload}FILE 19 93\nmanifest-sha256.txt{abc}  data/a\nSHA512 (data/b) = 0\n\nEND\n => invalid B6 manifest-sha256.txt L3 2\n => line 2 of manifest-sha256.txt is as sha256sum or sha512sum writes it with --tag; a manifest has the checksum first, then blanks and the path (B6 L3)\n
BAGSET 1\n{declared}{payload}FILE 19 77\nmanifest-sha256.txt\{abc}  data/a%0A\n\nEND\n => invalid B6 manifest-sha256.txt L3 1\n => line 1 of manifest-sha256.txt begins with a backslash, by which sha256sum marks an escaped name; a manifest has no such mark: it has a backslash once, LF as %0A, CR as %0D, and in version 1.0 % as %25 (B6 L3)\n
# Each cause for which a path is not good.
BAGSET 1\n{declared}{payload}FILE 19 73\nmanifest-sha256.txt{abc} *data/a\n\nEND\n => invalid B6 manifest-sha256.txt L5 1\n => line 1 of manifest-sha256.txt has no good path: it begins with *, by which checksum tools mark a binary file (B6 L5)\n
BAGSET 1\n{declared}{payload}FILE 19 1091\nmanifest-sha256.txt{abc} {long}\n\nEND\n => invalid B6 manifest-sha256.txt L5 1\n => line 1 of manifest-sha256.txt has no good path: it has more than 1,024 bytes (B6 L5)\n
BAGSET 1\n{declared}{payload}FILE 19 75\nmanifest-sha256.txt{abc} data//./a\n\nEND\n => invalid B6 manifest-sha256.txt L5 1\n => line 1 of manifest-sha256.txt has no good path: it has an empty segment, as where / begins or ends it, or is there twice (B6 L5)\n
BAGSET 1\n{declared}{payload}FILE 19 73\nmanifest-sha256.txt{abc} /data/a\n\nEND\n => invalid B6 manifest-sha256.txt L5 1\n => line 1 of manifest-sha256.txt has no good path: it has an empty segment, as where / begins or ends it, or is there twice (B6 L5)\n
BAGSET 1\n{declared}{payload}FILE 19 74\nmanifest-sha256.txt{abc} ./data/a\n\nEND\n => invalid B6 manifest-sha256.txt L5 1\n => line 1 of manifest-sha256.txt has no good path: it has the segment ., as in ./data (B6 L5)\n
BAGSET 1\n{declared}{payload}FILE 19 75\nmanifest-sha256.txt{abc} data/../a\n\nEND\n => invalid B6 manifest-sha256.txt L5 1\n => line 1 of manifest-sha256.txt has no good path: it has the segment .. (B6 L5)\n
BAGSET 1\n{declared}{payload}FILE 19 74\nmanifest-sha256.txt{abc} data/a{nul}b\n\nEND\n => invalid B6 manifest-sha256.txt L5 1\n => line 1 of manifest-sha256.txt has no good path: it has a NUL (B6 L5)\n
BAGSET 1\n{declared}{payload}FILE 19 145\nmanifest-sha256.txt{abc} data/a\n{abc} data//a\n\nEND\n => invalid B6 manifest-sha256.txt L5 2\n => line 2 of manifest-sha256.txt has no good path: it has an empty segment, as where / begins or ends it, or is there twice (B6 L5)\n
# A path stays the same under another digest, and in another spelling.
BAGSET 1\n{declared}{payload}FILE 19 144\nmanifest-sha256.txt{abc} data/a\n{abc} data/a\n\nEND\n => invalid B6 manifest-sha256.txt L6 2\n => line 2 of manifest-sha256.txt lists a path that an earlier line lists (B6 L6)\n
BAGSET 1\n{declared}{payload}FILE 19 144\nmanifest-sha256.txt{abc} data/a\n{nothing} data/a\n\nEND\n => invalid B6 manifest-sha256.txt L6 2\n
BAGSET 1\n{declared}{payload}FILE 19 218\nmanifest-sha256.txt{abc} data/%25\n{abc} data/a\n{abc} data/%\n\nEND\n => invalid B6 manifest-sha256.txt L6 3\n
# The first line at fault, whatever its code.
BAGSET 1\n{declared}{payload}FILE 19 136\nmanifest-sha256.txt{abc} a\n{abc} a\n?\n\nEND\n => invalid B6 manifest-sha256.txt L6 2\n
BAGSET 1\n{declared}{payload}FILE 19 137\nmanifest-sha256.txt{abc} ../a\n{abc}\n?\n\nEND\n => invalid B6 manifest-sha256.txt L5 1\n
# Manifests of both kinds, by their names.
BAGSET 1\n{declared}{payload}{listed}FILE 22 88\ntagmanifest-sha256.txt{manifest}  manifest-sha256.txt\n?\n\nEND\n => invalid B6 tagmanifest-sha256.txt L3 2\n
BAGSET 1\n{declared}FILE 19 76\nmanifest-sha256.txt{declaration}  bagit.txt\n\nFILE 19 1\nmanifest-sha512.txt?\nFILE 22 1\ntagmanifest-sha256.txt?\nEND\n => invalid B6 manifest-sha512.txt L3 1\n
# Tag manifests: none of the payload; of a tag file; an empty one.
BAGSET 1\n{declared}FILE 19 0\nmanifest-sha256.txt\nFILE 22 86\ntagmanifest-sha256.txt{nothing}  manifest-sha256.txt\n\nEND\n => valid 1.0 files 0 bytes 0 manifests 2\n
BAGSET 1\n{declared}{payload}{listed}FILE 22 162\ntagmanifest-sha256.txt{manifest}  manifest-sha256.txt\n{declaration}  bagit.txt\n\nEND\n => valid 1.0 files 1 bytes 3 manifests 2\n
# What manifests list; of several the least path, and not the first line.
BAGSET 1\n{declared}{payload}FILE 19 149\nmanifest-sha256.txt{abc}  data/a\n{declaration}  bagit.txt\n\nEND\n => invalid B7 manifest-sha256.txt bagit.txt\n => manifest-sha256.txt lists bagit.txt, but a payload manifest lists files in data/ alone (B7)\n
BAGSET 1\n{declared}{payload}FILE 19 76\nmanifest-sha256.txt{abc}  bagit.txt\n\nFILE 19 0\nmanifest-sha512.txt\nEND\n => invalid B7 manifest-sha256.txt bagit.txt\n
BAGSET 1\n{declared}FILE 19 143\nmanifest-sha256.txt{nothing}  datum\n{nothing}  data\n\nFILE 22 86\ntagmanifest-sha256.txt{nothing}  tagmanifest-md5.txt\n\nEND\n => invalid B7 manifest-sha256.txt data\n
BAGSET 1\n{declared}{payload}{listed}FILE 22 175\ntagmanifest-sha256.txt{manifest}  manifest-sha256.txt\n620d4c992332517faae13bb83b9012d829af6484fe0dfc05798eba879baf3dc1  tagmanifest-sha512.txt\n\nFILE 22 150\ntagmanifest-sha512.txte0b9d6c4ef244b48ead23be41105908b37dcfddd6e1b7802c3a297d181c96ffb3ecf969c7399b8c220e632505d896bdc7f5420db0ff8ed84e8656651b1c90f62  manifest-sha256.txt\n\nEND\n => invalid B8 tagmanifest-sha256.txt tagmanifest-sha512.txt\n => tagmanifest-sha256.txt lists tagmanifest-sha512.txt, but a tag manifest lists no tag manifest (B8)\n
BAGSET 1\n{declared}{payload}{listed}FILE 22 175\ntagmanifest-sha256.txt{manifest}  manifest-sha256.txt\n{nothing}  tagmanifest-sha512.txt\n\nEND\n => invalid B8 tagmanifest-sha256.txt tagmanifest-sha512.txt\n
BAGSET 1\n{declared}{payload}{listed}FILE 22 159\ntagmanifest-sha256.txt{abc}  data/a\n{nothing}  tagmanifest-md5.txt\n\nEND\n => invalid B8 tagmanifest-sha256.txt tagmanifest-md5.txt\n
BAGSET 1\n{declared}{payload}{listed}FILE 22 159\ntagmanifest-sha256.txt{manifest}  manifest-sha256.txt\n{abc}  data/a\n\nEND\n => invalid B9 tagmanifest-sha256.txt data/a\n => tagmanifest-sha256.txt lists data/a, but a tag manifest lists no payload file (B9)\n
BAGSET 1\n{declared}{payload}{listed}FILE 22 73\ntagmanifest-sha256.txt{nothing}  data/b\n\nEND\n => invalid B9 tagmanifest-sha256.txt data/b\n
BAGSET 1\n{declared}{payload}{listed}FILE 22 0\ntagmanifest-sha256.txt\nEND\n => invalid B10 tagmanifest-sha256.txt manifest-sha256.txt\n => tagmanifest-sha256.txt does not list manifest-sha256.txt, but a tag manifest lists every payload manifest (B10)\n
BAGSET 1\n{declared}{payload}{listed}FILE 22 76\ntagmanifest-sha256.txt{declaration}  bagit.txt\n\nEND\n => invalid B10 tagmanifest-sha256.txt manifest-sha256.txt\n
BAGSET 1\n{declared}{listed}FILE 19 0\nmanifest-sha512.txt\nFILE 22 162\ntagmanifest-sha256.txt{manifest}  manifest-sha256.txt\n{nothing}  about.txt\n\nFILE 22 0\ntagmanifest-sha512.txt\nEND\n => invalid B10 tagmanifest-sha256.txt manifest-sha512.txt\n
";

/// The payload: what is missing, unlisted or other than its digest.
pub(crate) static PAYLOADS: &str = r"
# Files that are missing; the least path by what it is, and not by how it is printed.
BAGSET 1\n{declared}{payload}FILE 19 146\nmanifest-sha256.txt{abc}  data/a\n{nothing}  data/b\n\nEND\n => invalid B11 manifest-sha256.txt data/b\n => manifest-sha256.txt lists data/b, but the bag has no such file (B11)\n
BAGSET 1\n{declared}{payload}FILE 19 73\nmanifest-sha256.txt{nothing}  data/b\n\nEND\n => invalid B11 manifest-sha256.txt data/b\n
BAGSET 1\n{declared}{payload}{listed}FILE 22 161\ntagmanifest-sha256.txt{manifest}  manifest-sha256.txt\n{nothing}  data.txt\n\nEND\n => invalid B11 tagmanifest-sha256.txt data.txt\n
BAGSET 1\n{declared}{payload}FILE 19 148\nmanifest-sha256.txt{nothing}  data/!\n{nothing}  data/%0a\n\nEND\n => invalid B11 manifest-sha256.txt data/%0A\n => manifest-sha256.txt lists data/%0A, but the bag has no such file (B11)\n{line-end}
# A percent sign, which version 1.0 lists as %25, and version 0.97 as it is.
BAGSET 1\n{declared}FILE 10 3\ndata/a%0Ababc\nFILE 19 79\nmanifest-sha256.txt{abc}  data/a%250Ab\n\nEND\n => valid 1.0 files 1 bytes 3 manifests 1\n
BAGSET 1\n{declared-0.97}FILE 10 3\ndata/a%0Ababc\nFILE 19 79\nmanifest-sha256.txt{abc}  data/a%250Ab\n\nEND\n => invalid B11 manifest-sha256.txt data/a%25250Ab\n => manifest-sha256.txt lists data/a%25250Ab, but the bag has no such file (B11)\n{percent}
BAGSET 1\n{declared-0.97}FILE 20 3\ndata/page%0Aone.htmlabc\nFILE 19 87\nmanifest-sha256.txt{abc}  data/page%0Aone.html\n\nEND\n => invalid B11 manifest-sha256.txt data/page%0Aone.html\n => manifest-sha256.txt lists data/page%0Aone.html, but the bag has no such file (B11)\n{line-end}
BAGSET 1\n{declared}FILE 20 3\ndata/page%0Aone.htmlabc\nFILE 19 1\nmanifest-sha256.txt\n\nEND\n => invalid B12 manifest-sha256.txt data/page%250Aone.html\n => data/page%250Aone.html is in the payload, but manifest-sha256.txt does not list it (B12)\n{percent}
BAGSET 1\n{declared}FILE 15 3\ndata/100%25.txtabc\nFILE 19 82\nmanifest-sha256.txt{abc}  data/100%25.txt\n\nEND\n => invalid B11 manifest-sha256.txt data/100%25.txt\n => manifest-sha256.txt lists data/100%25.txt, but the bag has no such file (B11)\n{percent}
BAGSET 1\n{declared}FILE 15 3\ndata/100%25.txtabc\nFILE 19 84\nmanifest-sha256.txt{abc}  data/100%2525.txt\n\nEND\n => valid 1.0 files 1 bytes 3 manifests 1\n
# Paths that differ by normal form alone.
BAGSET 1\n{declared}FILE 8 3\ndata/e{accent}abc\nFILE 19 74\nmanifest-sha256.txt{abc}  data/é\n\nEND\n => invalid B11 manifest-sha256.txt data/%C3%A9\n => manifest-sha256.txt lists data/%C3%A9, but the bag has no such file (B11)\nthe bag has data/e%CC%81, which differs by Unicode normal form alone, as NFC and NFD do; paths are compared byte for byte\n
BAGSET 1\n{declared}FILE 8 3\ndata/e{accent}abc\nFILE 7 3\ndata/éabc\nFILE 19 74\nmanifest-sha256.txt{abc}  data/é\n\nEND\n => invalid B12 manifest-sha256.txt data/e%CC%81\n => data/e%CC%81 is in the payload, but manifest-sha256.txt does not list it (B12)\nthe bag has data/%C3%A9, which differs by Unicode normal form alone, as NFC and NFD do; paths are compared byte for byte\n
# Files that are not listed, by one manifest of two too.
BAGSET 1\n{declared}{payload}{b}{listed}END\n => invalid B12 manifest-sha256.txt data/b\n => data/b is in the payload, but manifest-sha256.txt does not list it (B12)\n
BAGSET 1\n{declared}{payload}{listed}FILE 19 0\nmanifest-sha512.txt\nEND\n => invalid B12 manifest-sha512.txt data/a\n
BAGSET 1\nFILE 12 1\nbag-info.txt?\n{declared}{payload}{b}{listed}END\n => invalid B12 manifest-sha256.txt data/b\n
BAGSET 1\n{declared}{payload}{b}{mislisted}END\n => invalid B12 manifest-sha256.txt data/b\n
# Wrong digests; the least name of a manifest, and then the least path.
BAGSET 1\n{declared}{payload}{mislisted}END\n => invalid B17 manifest-sha256.txt data/a\n => the digest of data/a is not the checksum in manifest-sha256.txt (B17)\n
BAGSET 1\n{declared}{payload}{listed}FILE 22 86\ntagmanifest-sha256.txt{nothing}  manifest-sha256.txt\n\nEND\n => invalid B17 tagmanifest-sha256.txt manifest-sha256.txt\n
BAGSET 1\n{declared}{payload}{listed}FILE 22 162\ntagmanifest-sha256.txt{manifest}  manifest-sha256.txt\n{nothing}  bagit.txt\n\nEND\n => invalid B17 tagmanifest-sha256.txt bagit.txt\n
BAGSET 1\n{declared}{payload}{b}FILE 19 146\nmanifest-sha256.txt{abc}  data/b\n{abc}  data/a\n\nFILE 19 274\nmanifest-sha512.txt{nothing-512}  data/a\n{nothing-512}  data/b\n\nEND\n => invalid B17 manifest-sha256.txt data/b\n
BAGSET 1\n{declared}{payload}{b}FILE 19 274\nmanifest-sha512.txt{abc-512}  data/b\n{nothing-512}  data/a\n\nEND\n => invalid B17 manifest-sha512.txt data/a\n
# A name with LF, CR, %, blanks, DEL and bytes past ASCII.
BAGSET 1\n{declared}{strange}{strange-listed}END\n => valid 1.0 files 1 bytes 3 manifests 1\n
BAGSET 1\n{declared-0.97}{strange}FILE 19 92\nmanifest-sha256.txt{abc}  data/ a%0a%0D%\t{del}é📘~! \n\nEND\n => valid 0.97 files 1 bytes 3 manifests 1\n
BAGSET 1\n{declared}{strange-listed}END\n => invalid B11 manifest-sha256.txt {strange-said}\n => manifest-sha256.txt lists {strange-said}, but the bag has no such file (B11)\n{both}
BAGSET 1\n{declared}{strange}FILE 19 0\nmanifest-sha256.txt\nEND\n => invalid B12 manifest-sha256.txt {strange-said}\n => {strange-said} is in the payload, but manifest-sha256.txt does not list it (B12)\n{both}
BAGSET 1\n{declared}{strange}FILE 19 94\nmanifest-sha256.txt{nothing}  data/ a%0A%0D%25\t{del}é📘~! \n\nEND\n => invalid B17 manifest-sha256.txt {strange-said}\n
# The bag of the usual tool, and with another last digit of the digest of bag-info.txt.
{tool}1{tool-end} => valid 0.97 files 2 bytes 13 manifests 4\n
{tool}0{tool-end} => invalid B17 tagmanifest-sha512.txt bag-info.txt\n
";

/// What `bag-info.txt` has.
pub(crate) static INFOS: &str = r"
# The lines of bag-info.txt; the first line at fault, whatever its code.
BAGSET 1\nFILE 12 9\nbag-info.txtTitle: {ff}\n\n{bag} => invalid B13 I1\n => bag-info.txt is not UTF-8 text (B13 I1)\n
BAGSET 1\nFILE 12 5\nbag-info.txt{bom}{ff}\n\n{bag} => invalid B13 I1\n
BAGSET 1\nFILE 12 12\nbag-info.txt{bom}Title: a\n\n{bag} => invalid B13 I2\n => bag-info.txt begins with a byte order mark, and must not (B13 I2)\n
BAGSET 1\nFILE 12 9\nbag-info.txt{bom}Title\n\n{bag} => invalid B13 I2\n
BAGSET 1\nFILE 12 15\nbag-info.txtTitle: a\n\n b\nc\n\n{bag} => invalid B13 I3 4\n => line 4 of bag-info.txt has no colon (B13 I3)\n
BAGSET 1\nFILE 12 24\nbag-info.txtTitle: a\n \t: b\n\t: c\n: d\n\n{bag} => invalid B13 I4 4\n => line 4 of bag-info.txt has no label before its colon (B13 I4)\n
BAGSET 1\nFILE 12 6\nbag-info.txt \n: b\n\n{bag} => invalid B13 I4 2\n
BAGSET 1\nFILE 12 12\nbag-info.txt\r\n Title: a\n\n{bag} => invalid B13 I5 2\n => line 2 of bag-info.txt continues a value, but no label comes before it (B13 I5)\n
BAGSET 1\nFILE 12 9\nbag-info.txt a\nb\n: c\n\n{bag} => invalid B13 I5 1\n
BAGSET 1\nFILE 12 6\nbag-info.txt: a\nb\n\n{bag} => invalid B13 I4 1\n
BAGSET 1\nFILE 12 36\nbag-info.txtPayload-Oxum: 3\nPayload-Oxum: 3.1\na\n\n{bag} => invalid B13 I3 3\n
# Right counts, and none.
BAGSET 1\nFILE 12 0\nbag-info.txt\n{bag} => valid 1.0 files 1 bytes 3 manifests 1\n
BAGSET 1\nFILE 12 18\nbag-info.txtPayload-Oxum: 3.1\n\n{bag} => valid 1.0 files 1 bytes 3 manifests 1\n
BAGSET 1\nFILE 12 22\nbag-info.txtPayload-Oxum:003.01 \t\n\n{bag} => valid 1.0 files 1 bytes 3 manifests 1\n
BAGSET 1\nFILE 12 58\nbag-info.txtpayload-OXUM : 00000000000000000003.00000000000000000001\r\n\n{bag} => valid 1.0 files 1 bytes 3 manifests 1\n
BAGSET 1\nFILE 12 50\nbag-info.txtSource-Organization: a\n b\n\n\tc: d\nPayload-Oxum: 3.1\n{bag} => valid 1.0 files 1 bytes 3 manifests 1\n
BAGSET 1\nFILE 12 21\nbag-info.txtPayload-Oxum: 3.1\n  \n\n{bag} => valid 1.0 files 1 bytes 3 manifests 1\n
# Counts that are no two numbers, that stand twice, and that are wrong.
BAGSET 1\nFILE 12 16\nbag-info.txtPayload-Oxum: 3\n\n{bag} => invalid B14\n => the Payload-Oxum of bag-info.txt is not two numbers of 1 to 20 digits with a full stop between them (B14)\n
BAGSET 1\nFILE 12 14\nbag-info.txtPayload-Oxum:\n\n{bag} => invalid B14\n
BAGSET 1\nFILE 12 17\nbag-info.txtPayload-Oxum: .1\n\n{bag} => invalid B14\n
BAGSET 1\nFILE 12 17\nbag-info.txtPayload-Oxum: 3.\n\n{bag} => invalid B14\n
BAGSET 1\nFILE 12 19\nbag-info.txtPayload-Oxum: 3 .1\n\n{bag} => invalid B14\n
BAGSET 1\nFILE 12 19\nbag-info.txtPayload-Oxum: +3.1\n\n{bag} => invalid B14\n
BAGSET 1\nFILE 12 20\nbag-info.txtPayload-Oxum: 3.1.1\n\n{bag} => invalid B14\n
BAGSET 1\nFILE 12 19\nbag-info.txtPayload-Oxum:\n 3.1\n\n{bag} => invalid B14\n
BAGSET 1\nFILE 12 38\nbag-info.txtPayload-Oxum: 000000000000000000003.1\n\n{bag} => invalid B14\n
BAGSET 1\nFILE 12 22\nbag-info.txtPayload-Oxum: 3.1\n {nbsp}\n\n{bag} => invalid B14\n
BAGSET 1\nFILE 12 24\nbag-info.txtPayload-Oxum: 3.1\n \n .1\n\n{bag} => invalid B14\n
BAGSET 1\nFILE 12 34\nbag-info.txtPayload-Oxum: 4.1\nPayload-Oxum: 3\n\n{bag} => invalid B14\n
BAGSET 1\nFILE 12 36\nbag-info.txtPayload-Oxum: 3.1\nPAYLOAD-oxum: 3.1\n\n{bag} => invalid B15\n => bag-info.txt has more than one Payload-Oxum (B15)\n
BAGSET 1\nFILE 12 36\nbag-info.txtPayload-Oxum: 4.1\nPayload-Oxum: 4.1\n\n{bag} => invalid B15\n
BAGSET 1\nFILE 12 18\nbag-info.txtPayload-Oxum: 3.2\n\n{bag} => invalid B16\n
BAGSET 1\nFILE 12 19\nbag-info.txtPayload-Oxum: 30.1\n\n{bag} => invalid B16\n
BAGSET 1\nFILE 12 37\nbag-info.txtPayload-Oxum: 18446744073709551619.1\n\n{bag} => invalid B16\n
BAGSET 1\nFILE 12 56\nbag-info.txtPayload-Oxum: 99999999999999999999.99999999999999999999\n\n{bag} => invalid B16\n
# Wrong counts come before a wrong digest.
BAGSET 1\nFILE 12 18\nbag-info.txtPayload-Oxum: 4.1\n\n{declared}{payload}{mislisted}END\n => invalid B16\n => the bytes and files that Payload-Oxum in bag-info.txt names are not those of the payload (B16)\n
BAGSET 1\nFILE 12 18\nbag-info.txtPayload-Oxum: 3.1\n\n{declared}{payload}{mislisted}END\n => invalid B17 manifest-sha256.txt data/a\n
";

/// Forms, and texts that are none.
pub(crate) static ENTRIES: &str = r"
# The opening; what begins otherwise may look like another file.
BAGSET 2\nEND\n => unreadable S1\n => this is no transfer form: it does not begin with the line BAGSET 1 (S1)\n
BAGSETS => unreadable S1\n
{zip} => unreadable S1\n => {no-form}this looks like a zip file{wanted}
{gzip} => unreadable S1\n => {no-form}this looks like a gzip file{wanted}
BagIt-Version: 1.0\nTag-File-Character-Encoding: UTF-8\n => unreadable S1\n => {no-form}this looks like a bag's bagit.txt{wanted}
BAGSET 1\r\nEND\r\n => unreadable S1\n => {no-form}this looks like a transfer form whose line ends were changed; a form is carried byte for byte\n
# No entry, a zero in front, numbers out of their range where the text ends, and another byte than LF after a content.
BAGSET 1\nEND\r\n => unreadable S2 9\n
BAGSET 1\n{declared}FILE 6 03\ndata/aabc\n{listed}END\n => unreadable S2 83\n => the entry at byte 83 is neither the line END nor a file with the lengths that its header gives (S2)\n
BAGSET 1\nFILE 0 => unreadable S2 9\n
BAGSET 1\nFILE 1025 => unreadable S2 9\n
BAGSET 1\nFILE 1 1\nabc\nEND\n => unreadable S2 9\n
BAGSET 1\nFILE 1 0\na\nFILE 1 16777217 => unreadable S2 20\n
# Forms that are cut.
 => unreadable S3\n => the form ends too early: it stops before the end of the line END (S3)\n
BAGSET 1 => unreadable S3\n
BAGSET 1\nEN => unreadable S3\n
BAGSET 1\nFILE 1024 => unreadable S3\n
BAGSET 1\nFILE 1 1677721 => unreadable S3\n
BAGSET 1\nFILE 1 1\nab => unreadable S3\n
# Within one entry: the end of the text, the byte after the content, the path, its place.
BAGSET 1\nFILE 2 1\n..b => unreadable S3\n
BAGSET 1\nFILE 1 0\n{ff}x => unreadable S2 9\n
# Paths, and another name between a folder and what is in it.
BAGSET 1\nFILE 1 0\nb\nFILE 1 0\na\nEND\n => unreadable S4 20\n => the entry at byte 20 is out of order: its path does not come after the one before it, byte for byte (S4)\n
BAGSET 1\nFILE 1 0\nb\nFILE 1 0\nb\nEND\n => unreadable S4 20\n
BAGSET 1\nFILE 1 0\n{ff}\nEND\n => unreadable S5 9\n => {no-path}
BAGSET 1\nFILE 1 0\na\nFILE 2 0\nb/\nEND\n => unreadable S5 20\n
BAGSET 1\nFILE 1 0\nb\nFILE 2 0\na/\nEND\n => unreadable S5 20\n
BAGSET 1\nEND\nEND\n => unreadable S7\n => the form goes on after its line END (S7)\n
BAGSET 1\nFILE 4 0\ndata\nEND\n => unreadable S8\n => a path of the form is data, or names both a file and a folder (S8)\n
BAGSET 1\nFILE 1 0\na\nFILE 2 0\na!\nFILE 3 0\na/b\nEND\n => unreadable S8\n
# Entries one after the other, then what follows the end, and names that clash last.
BAGSET 1\nFILE 1 0\nb\nFILE 1 0\na\nFILES => unreadable S4 20\n
BAGSET 1\nFILE 4 0\ndata\nEND\n\n => unreadable S7\n
";
