//! Laws of the entries of an account and of their text. Each stands as the contract of a function that does nothing.

ghost use Rattle.journal_laws.specs.Laws.{NextEntriesFit, HeldHistoriesAreSound, LawfulHistoriesAreSound, NextEntriesHaveForms, OpenedEntriesHaveForms, LawfulEntriesHaveForms, ReadEntriesHaveForms, LoadedHistoriesAreOpened, JournalsDiffer, LawfulJournalsDiffer, JournalIsReadBack, OpenedJournalIsReadBack, LawfulJournalIsReadBack, JournalsAreJudgedOnce, TagMarkersAreReadBack, TagMarkersOfOpened, TagMarkersOfLawful};

/// An entry that a proper request appends, or that housekeeping appends at a clock's answer before the
/// year 10000, fits the history before it, where an account holds that history and the account's number
/// is one: twelve digits. (A key that is made without a policy has the account's default policy, which
/// has no fault where this is so.)
pub fn next_entries_fit()
    ensures { NextEntriesFit }
{}

/// Each entry of a history that an account holds fits those before it, whoever made it: one that it was
/// given as one that fits, and one that a proper request or housekeeping appended. The account's number
/// is one.
pub fn held_histories_are_sound()
    ensures { HeldHistoriesAreSound }
{}

/// Each entry of a lawful history fits those before it, where the account's number is one.
pub fn lawful_histories_are_sound()
    ensures { LawfulHistoriesAreSound }
{}

/// An entry that a proper request or housekeeping appends to a history that an account holds has the
/// forms that a text can tell (`IsEntry` of `journal_lines`): ids have their sizes, texts are UTF-8,
/// alias names and principals have their forms, times and dates have 64 bits, numbers of days 32, a
/// context stands in the order of its keys and has at most 8,192 encoded bytes, and a set of grant
/// operations has no bit but theirs. So have the entries of a history that goes on from a sound one
/// whose entries have their forms, and an account holds that history; so have the entries of a lawful
/// history, and what is read of a line. The account's number is one, but for what is read.
pub fn entries_have_forms()
    ensures next { NextEntriesHaveForms }
    ensures opened { OpenedEntriesHaveForms }
    ensures lawful { LawfulEntriesHaveForms }
    ensures read { ReadEntriesHaveForms }
{}

/// The history that `read_journal` gives is one that an opened account holds (`IsOpened` of
/// `account_laws`), and its entries have their forms. So what `account_laws` and `pass_laws` say of such
/// histories holds of an account that was loaded, and of all that its service makes of it.
pub fn loaded_histories_are_opened()
    ensures { LoadedHistoriesAreOpened }
{}

/// Where the texts of two histories are equal, each under facts of its own, then so are the accounts, the
/// regions, the boot numbers and the histories. The accounts' numbers and the regions have their forms,
/// the boot numbers have 32 bits, and the entries of both histories have their forms, or both histories
/// are lawful. The root secrets may differ: a text doesn't tell its own.
pub fn journals_differ()
    ensures formed { JournalsDiffer }
    ensures lawful { LawfulJournalsDiffer }
{}

/// The text of a history is a journal to any facts with the same account, region and root secret and a
/// higher boot number of 32 bits: of that history, whose entries have their forms and are fewer than
/// 10^18, and of no other whose entries have their forms. So `read_journal` takes it under these facts,
/// and has that history, but for want of memory. An account holds the history and its entries have their
/// forms, or it goes on from a sound history whose entries have their forms, or it is lawful; and the
/// account's number is one.
pub fn journal_is_read_back()
    ensures held { JournalIsReadBack }
    ensures opened { OpenedJournalIsReadBack }
    ensures lawful { LawfulJournalIsReadBack }
{}

/// Bytes are the text of one history at most, each of whose lines is read as its entry, or have exactly one
/// first fault: of any two faults that `read_journal`'s clause `fault` allows, neither want of memory, one is
/// the other. Where the facts' boot number has 32 bits, what is such a text has no fault, but for want of
/// memory. So of these bytes under these facts `read_journal` answers one thing, or want of memory.
pub fn journals_are_judged_once()
    ensures { JournalsAreJudgedOnce }
{}

/// The marker that a part of the list of a key's tags ends with, sent back, is read as the key of the tag
/// that it was made of (AWS KMS API Reference, ListResourceTags): at each history whose entries have their
/// forms, at each that goes on from a sound one of such entries, and at each lawful one. The account's
/// number is one.
pub fn markers_of_tags_are_read_back()
    ensures formed { TagMarkersAreReadBack }
    ensures opened { TagMarkersOfOpened }
    ensures lawful { TagMarkersOfLawful }
{}
