// The bytes of a commitment into any sink, and its signature.
ghost use Rattle.std.specs.Prelude.{◌≡◌, ◌≤◌};
ghost use Rattle.commitments.specs.Bytes.{commitment_bytes, signature_of};
ghost use Rattle.commitments.specs.Drafts.{drafted};
ghost use Rattle.commitments.specs.Headings.{Heads, headed_bytes};
ghost use Rattle.commitments.specs.Sinks.{Puts};

use crate::draft::Draft;
use crate::heading::{Heading, put_heading};
use crate::price::price;
use crate::put::put_log;
use crate::side::Side;
use crate::sink::Sink;
use logs::gross::reckon;
use logs::scan::rate_after;
use logs::update::Update;
use money::kind::Money;
use sha256::hasher::Hasher;

// A heading, then the funder's pending payments, then the other side's.
#[tactic(auto, using(crate::proofs::Fills::puts_then))]
pub fn put_headed<M: Money, S: Sink>(
    sink: &mut S,
    heading: &Heading<M>,
    funders: &[Update<M>],
    others: &[Update<M>],
)
    requires { heading.now.pending ≤ 8192 }
    ensures { Puts S.took sink.old (headed_bytes M.Money heading.now funders.now others.now) sink.new }
{
    put_heading(sink, heading);
    put_log(sink, Side::Funder, funders, others);
    put_log(sink, Side::Other, others, funders);
}

impl<M: Money> Draft<'_, M> {
    // What stands at its head.
    pub fn heading(&self) -> Heading<M>
        ensures { Heads M.Money result (drafted M.Money self.now) }
    {
        let funders = self.funders;
        let others = self.others;
        let opening = self.opening;
        let rate = rate_after(opening.rate, funders);
        let mine = reckon(&opening.funders, funders, funders.len(), others);
        let theirs = reckon(&opening.others, others, others.len(), funders);
        let pending = mine.pending + theirs.pending;
        let priced = price(rate, pending, &mine.gross);
        Heading {
            number: self.number,
            holder: self.holder,
            rate,
            fee: priced.fee,
            funders: priced.output,
            others: theirs.gross,
            pending,
        }
    }

    // Puts all its bytes into a sink.
    pub fn put<S: Sink>(&self, sink: &mut S)
        ensures { Puts S.took sink.old (commitment_bytes M.terms (drafted M.Money self.now)) sink.new }
    {
        put_headed(sink, &self.heading(), self.funders, self.others);
    }

    // Its signature: no copy of its bytes is made.
    pub fn sign(&self) -> [u8; 32]
        ensures { result ≡ signature_of M.terms (drafted M.Money self.now) }
    {
        let mut hasher = Hasher::new();
        self.put(&mut hasher);
        hasher.digest()
    }
}
