//! Laws of reading.

ghost use Rattle.og_cert_read.specs.Laws.{WrittenIsRead, SharedIsRead, SharedIsShort, SharedIsShortest, OneCertificate, OneAnswer, GivenIsRead};

/// A file that is written, in either version, is read as that file; version 2 is not longer than
/// version 1, nor than any text of the file, and takes certificates for one only where they are
/// equal; a text gives one answer, and a text that gives a file is read as that file, unless memory
/// runs out. Does nothing.
pub fn reading_laws()
    ensures written { WrittenIsRead }
    ensures shared { SharedIsRead }
    ensures short { SharedIsShort }
    ensures shortest { SharedIsShortest }
    ensures alike { OneCertificate }
    ensures one { OneAnswer }
    ensures given { GivenIsRead }
{}
