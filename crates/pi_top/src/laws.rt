//! Laws of the definitions of what picatq answers.
ghost use Rattle.std.specs.Prelude.{◌≡◌, ◌≢◌, ℕ, List, map};
ghost use Rattle.pi_syntax.specs.ExpTree.{ExpTree};
ghost use Rattle.pi_syntax.specs.ProgramTree.{ProgramTree};
ghost use Rattle.pi_syntax.specs.Tokens.{Token};
ghost use Rattle.pi_prog_clauses.specs.Verdict.{HasVerdict, a_program};
ghost use Rattle.pi_meaning.specs.OverNames.Laws.{HeadsAreFree};
ghost use Rattle.pi_core.specs.declared.log.LogEntry.{LogEntry};
ghost use Rattle.pi_top.specs.declared.manner.Manner.{Manner};
ghost use Rattle.pi_top.specs.declared.runs.QueryRun.{QueryRun};
ghost use Rattle.pi_top.specs.Judged.{Refused, Asks, AreFaultless};
ghost use Rattle.pi_top.specs.QueryEnd.{EndingIsOne};
ghost use Rattle.pi_top.specs.Asking.{IsReady, IsUnready, AsksOf, RefusesOf};
ghost use Rattle.pi_top.specs.Runs.{but_for_runs};
ghost use Rattle.pi_top.specs.Session.{ServesItsLines, SessionsAreOne};
ghost use Rattle.pi_top.specs.SoleLine.{IsLine};
ghost use Rattle.pi_top.specs.Statuses.{ComesText, ComesPrinted};
ghost use Rattle.pi_top.specs.Told.{lists};

use pi_lex::one_reading;
use pi_prog::one_verdict;

/// Two texts come to one thing: to one line that says why nothing is run, or to one goal that is asked of one program, and never to both.
pub fn judgements_are_one()
    ensures line { (text goal line other : List ℕ) → Refused text goal line → Refused text goal other → line ≡ other }
    ensures not_both { (text goal line : List ℕ) (program : ProgramTree) (asked : ExpTree) → Refused text goal line →
        Asks text goal program asked → ⊥ }
    ensures program { (text goal : List ℕ) (program other : ProgramTree) (asked another : ExpTree) → AreFaultless text goal program asked
        → AreFaultless text goal other another → (program ≡ other) × (asked ≡ another) }
{
    one_reading();
    one_verdict();
}

/// A program's text is ready for the goals of a session, or a line says why none is asked, and never both, each in one way; so it is with a
/// goal's text that is asked of a program then. The lines that a session served are those that were found in its input. And where no
/// read of the input fails, no write, no memory is wanted and no query's work reaches what it may do, program, manner, log and input decide
/// its status, the goals that were run with their Ticks, and the bytes that are written.
pub fn sessions_are_one()
    ensures program { (text : List ℕ) (program other : ProgramTree) → IsReady text program → IsReady text other → program ≡ other }
    ensures program_line { (text line other : List ℕ) → IsUnready text line → IsUnready text other → line ≡ other }
    ensures program_or_line { (text line : List ℕ) (program : ProgramTree) → IsReady text program → IsUnready text line → ⊥ }
    ensures goal { (program : ProgramTree) (text : List ℕ) (goal other : ExpTree) → AsksOf program text goal →
        AsksOf program text other → goal ≡ other }
    ensures goal_line { (program : ProgramTree) (text line other : List ℕ) → RefusesOf program text line →
        RefusesOf program text other → line ≡ other }
    ensures goal_or_line { (program : ProgramTree) (text line : List ℕ) (goal : ExpTree) → AsksOf program text goal →
        RefusesOf program text line → ⊥ }
    ensures lines { ServesItsLines }
    ensures session { SessionsAreOne }
{
    one_reading();
    one_verdict();
}

/// No two endings fit one part of one run. Where a goal is asked 3 comes exactly where the texts come to a line, and this line is then
/// all that is written. And where neither a read nor a write fails, memory isn't wanted and the work isn't spent, the two texts, the manner
/// of asking and the log decide the status, the goals that were run with their Ticks, and the texts that are written; and so does a
/// program's text where it is printed.
pub fn outcomes_are_one()
    ensures endings { EndingIsOne }
    ensures refused { (manner : Manner) (text goal line : List ℕ) (texts : List (List ℕ)) (queries : List QueryRun)
        (log : List LogEntry) (status : ℕ) → Refused text goal line → ComesText manner text goal (lists queries log) status texts →
        IsLine line 3 status queries texts }
    ensures run { (manner : Manner) (text goal : List ℕ) (texts : List (List ℕ)) (program : ProgramTree) (of_program : ExpTree)
        (queries : List QueryRun) (log : List LogEntry) (status : ℕ) → Asks text goal program of_program →
        ComesText manner text goal (lists queries log) status texts → status ≢ 3 }
    ensures status { (manner : Manner) (text goal : List ℕ) (texts others : List (List ℕ)) (queries runs : List QueryRun)
        (log : List LogEntry) (status other : ℕ) → ComesText manner text goal (lists queries log) status texts →
        ComesText manner text goal (lists runs log) other others → status ≢ 6 → other ≢ 6 → status ≡ other }
    ensures queries { (manner : Manner) (text goal : List ℕ) (texts others : List (List ℕ)) (queries runs : List QueryRun)
        (log : List LogEntry) (status other : ℕ) → ComesText manner text goal (lists queries log) status texts →
        ComesText manner text goal (lists runs log) other others → status ≢ 6 → other ≢ 6 →
        map but_for_runs queries ≡ map but_for_runs runs }
    ensures texts { (manner : Manner) (text goal : List ℕ) (texts others : List (List ℕ)) (queries runs : List QueryRun)
        (log : List LogEntry) (status other : ℕ) → ComesText manner text goal (lists queries log) status texts →
        ComesText manner text goal (lists runs log) other others → status ≢ 6 → other ≢ 6 → texts ≡ others }
    ensures printed { (text : List ℕ) (texts others : List (List ℕ)) (queries runs : List QueryRun) (status other : ℕ) →
        ComesPrinted text queries status texts → ComesPrinted text runs other others →
        (queries ≡ runs) × (status ≡ other) × (texts ≡ others) }
{
    one_reading();
    one_verdict();
}

/// No predicate of a program without a fault has a name that means something else: that of a form of control, of something built in, or
/// of a predicate of the prelude. So its calls mean what its rules say.
pub fn heads_are_free()
    ensures { (tokens : List Token) (program : ProgramTree) → HasVerdict tokens (a_program program) → HeadsAreFree program }
{}
