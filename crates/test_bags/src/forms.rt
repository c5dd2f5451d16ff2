//! Bags in their transfer form.

/// Bag A: `data/a` is `abc`, version 1.0, one sha256 manifest.
pub const BAG: &[u8] =
    b"BAGSET 1\nFILE 9 54\nbagit.txtBagIt-Version: 1.0\nTag-File-Character-Encoding: UTF-8\n\nFILE 6 3\ndata/aabc\nFILE 19 73\nmanifest-sha256.txtba7816bf8f01cfea414140de5dae2223b00361a396177a9cb410ff61f20015ad  data/a\n\nEND\n";

/// Bag A in version 0.97.
pub const BAG_0_97: &[u8] =
    b"BAGSET 1\nFILE 9 55\nbagit.txtBagIt-Version: 0.97\nTag-File-Character-Encoding: UTF-8\n\nFILE 6 3\ndata/aabc\nFILE 19 73\nmanifest-sha256.txtba7816bf8f01cfea414140de5dae2223b00361a396177a9cb410ff61f20015ad  data/a\n\nEND\n";

/// Bag A with the file named `data/a%0Ab`, which the manifest spells `data/a%250Ab`.
pub const PERCENT: &[u8] =
    b"BAGSET 1\nFILE 9 54\nbagit.txtBagIt-Version: 1.0\nTag-File-Character-Encoding: UTF-8\n\nFILE 10 3\ndata/a%0Ababc\nFILE 19 79\nmanifest-sha256.txtba7816bf8f01cfea414140de5dae2223b00361a396177a9cb410ff61f20015ad  data/a%250Ab\n\nEND\n";

/// No payload, an empty payload manifest, and a tag manifest that lists it.
pub const NO_PAYLOAD: &[u8] =
    b"BAGSET 1\nFILE 9 54\nbagit.txtBagIt-Version: 1.0\nTag-File-Character-Encoding: UTF-8\n\nFILE 19 0\nmanifest-sha256.txt\nFILE 22 86\ntagmanifest-sha256.txte3b0c44298fc1c149afbf4c8996fb92427ae41e4649b934ca495991b7852b855  manifest-sha256.txt\n\nEND\n";
