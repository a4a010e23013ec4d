// What follows from the definitions alone.
ghost use Rattle.session_laws.specs.Calls.{TurnsAreCalls, RunsAreCalls, SessionsAreCalls, WorkersAreCalls, ServersAreCalls, WorkersMadeAll, ServersAreOneRun};
ghost use Rattle.session_laws.specs.Laws.{OneCut, OneEnd, OneReplyText, EachMessageIsAnswered, RunsKeepLawful, RunsKeepOpened, TurnsGoOn, RunsGoOn, OneSessionRepeatsNoIv};

use pass_laws::calls_are_events;

/// A stream is cut into messages in one way: two cuts into as many items have the same rest and the same items,
/// but that bytes of which no head can come may bear another fault.
pub fn one_cut()
    ensures { OneCut }
{}

/// A reply has one text: an answer, a second, a number of entries, and whether the connection closes, determine each
/// of its bytes. So a turn that is answered is answered with that text alone.
pub fn one_reply_text()
    ensures { OneReplyText }
{}

/// Of the ends Ended, Closed and CutOff no two can hold of one session whose link tells the bytes
/// taken, but that one may be cut off or closed whose last bytes no head can come of, or have more than
/// 64 headers. So where a run over the bytes taken meets the cause of one, none of the others is answered.
pub fn one_end()
    ensures { OneEnd }
{}

/// A session over a link that has only whole messages to give, or some up to one that closes, and whose
/// counts of faults don't rise, answers each of them once and in order, or by the one fixed reply for want of
/// memory in an answer's place; it writes nothing else, and ends with Ended, or with Closed where the last one
/// closes. Or it ends with NoMemory, and took nothing.
pub fn each_message_is_answered()
    ensures { EachMessageIsAnswered }
{}

/// A run of turns keeps the facts, keeps a lawful history lawful, and one that an opened account holds such a
/// one. So the laws of histories hold of whatever history a session leaves, whether it began with nothing or with
/// what was loaded.
pub fn runs_keep_lawful()
    ensures lawful { RunsKeepLawful }
    ensures opened { RunsKeepOpened }
{}

/// A turn and a run of turns only add to what the pass has seen. So the numbers of entries that the replies
/// of a session name never fall, and what stood in the history when a reply was given stands in it at every
/// later one.
pub fn histories_only_grow()
    ensures turns { TurnsGoOn }
    ensures runs { RunsGoOn }
{}

/// The texts that one session seals have initialization vectors of their own, whatever turns, also those
/// that want memory, stand between two of them.
pub fn one_session_repeats_no_iv()
    ensures { OneSessionRepeatsNoIv }
{}

/// What sessions and workers do is calls of their passes, of which `pass_laws` says that they are events of one
/// machine, and what follows for all that they are answered: a turn is no call or one, a run of turns is their
/// calls in order, and so is a session, however it ends, a worker over all its connections, and each worker of a
/// server from its new pass on.
pub fn sessions_are_calls()
    ensures turns { TurnsAreCalls }
    ensures runs { RunsAreCalls }
    ensures sessions { SessionsAreCalls }
    ensures workers { WorkersAreCalls }
    ensures servers { ServersAreCalls }
{}

/// In the history that a server leaves each entry behind the loaded ones is one worker's own: the workers' passes
/// have the numbers 1 to n, each such entry bears one of these, and the places of a pass's own entries are exactly
/// those that have its number.
pub fn workers_made_all()
    ensures { WorkersMadeAll }
{}

/// What a server does is one run of one machine. Whatever calls its workers made with their passes, all of them were
/// made together in one order: each call that published met all that was published then, each other one a beginning of
/// that. The order leaves each pass as its worker has it, a pass's calls in it are its worker's, one by one, and what is
/// published at last is the history that the server leaves. So of what ran all holds that `machine_law` of `pass_laws`
/// says, where what was loaded is an opened account's history, as one that is read of a journal is.
pub fn servers_are_one_run()
    ensures { ServersAreOneRun }
{
    workers_made_all();
    calls_are_events();
}
