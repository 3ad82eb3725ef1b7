//! Laws of code files.

ghost use Rattle.code_file.specs.Laws.{AcceptedIsCounted, FaultsHaveNoCode, OneCode, ReadIsFile};
ghost use Rattle.code_file.specs.Laws.{BadFieldIsFirst, CutIsTruncated, EachIsRead};
ghost use Rattle.code_file.specs.Laws.{MoreIsTrailing, ReadsBack};

use rev_num::word_laws;

/// The file of code that has one is read as that code, and two codes with one file are the same.
/// What is read is the file of the code that was read. What has a first fault is the file of no
/// code, and whatever bytes are not read as code have one, which is not want of memory.
pub fn file_laws()
    ensures back { ReadsBack }
    ensures one { OneCode }
    ensures exact { ReadIsFile }
    ensures none { FaultsHaveNoCode }
    ensures each { EachIsRead }
{
    word_laws();
}

/// The fault that is reported is the first. A file that is cut short is `Truncated` where it was
/// cut, and one with more bytes behind it is `Trailing` where it ends. A `BadField` is known by the
/// bytes through that field: fewer of them are only cut short, and no file begins with them.
pub fn fault_laws()
    ensures cut { CutIsTruncated }
    ensures behind { MoreIsTrailing }
    ensures bad { BadFieldIsFirst }
{
    word_laws();
}

/// Code that the verifier accepts can be written, where it has no more `TryJoin` than a file can
/// count.
pub fn accepted_law()
    ensures { AcceptedIsCounted }
{}
