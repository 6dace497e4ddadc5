// The card's meaning, the ledger that a clerk keeps of it, and the law over all runs of two cards.
#![tactic(auto)]

ghost use Rattle.law.specs.Associations.{Hashing, Sized};
ghost use Rattle.law.specs.Hashes.{keyed};
ghost use Rattle.law.specs.Law.{Law};
ghost use Rattle.law.specs.Laws.{SentAgainRunsNothing, SessionsAreNamedByRow, NewConnectionsBeginEmpty, PowerKeepsCounts};

use application::Application;
use sealing::Sealer;

// The law stands: for any sealer and any two applications, over every list of calls.
pub fn law_stands<S: Sealer, L: Application, R: Application>()
    ensures { Law S.seals L.acts R.acts }
{}

// Four laws of every state and call: a block that was answered 92, sent again, runs nothing and has the same reply; the session
// of row r has the byte r × 64; a new connection begins empty; no power change lowers a count.
pub fn runs_keep_their_laws<S: Sealer, A: Application>()
    ensures again { (𝓗 : Hashing) → SentAgainRunsNothing 𝓗 S.seals A.acts }
    ensures named { (𝓗 : Hashing) → SessionsAreNamedByRow 𝓗 S.seals A.acts }
    ensures empty { (𝓗 : Hashing) → NewConnectionsBeginEmpty 𝓗 S.seals A.acts }
    ensures power { (𝓗 : Hashing) → PowerKeepsCounts 𝓗 S.seals A.acts }
{}

// HMAC-SHA-256 and its expansion are such as the law asks for, so that it stands for a card that derives by them.
pub fn card_hashes_serve()
    ensures { Sized keyed }
{}
