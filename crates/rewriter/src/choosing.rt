//! The cheapest of the three forms.
ghost use Rattle.std.specs.Prelude.{◌≡◌, ◌≢◌, ◌<◌, IfSome};
ghost use Rattle.plan_core.specs.PlainPlan.{PlainPlan};
ghost use Rattle.estimator.specs.Bytes.{Lengths};
ghost use Rattle.estimator.specs.Cuts.{Cuts};
ghost use Rattle.rewrite_core.specs.Entries.{Entries};
ghost use Rattle.rewriter.specs.Forms.{IsRead, IsGrown};
ghost use Rattle.rewriter.specs.Search.{IsComputedPrice, IsEstimateIfAny, IsChoice};
ghost use Rattle.rewriter.specs.Choosing.{IsCheaper};
ghost use Rattle.rewriter.specs.declared.priced.Form.TheVariants as form;

use crate::priced::{Choice, Form, Price};

/// The form with the smallest estimate, of the price of those that compute and the estimates of those that
/// read and of those that grow; of equal ones to compute is taken before to read, and that before to grow.
pub fn cheapest(computed: Price, read: Option<u64>, grown: Option<u64>) -> Choice
    ensures least { (entries : Entries) (lengths : Lengths) (q : PlainPlan) (c : Cuts)
        → IsComputedPrice entries lengths q c computed
        → IsEstimateIfAny IsRead entries lengths q c read
        → IsEstimateIfAny IsGrown entries lengths q c grown
        → IsChoice entries lengths q c result }
    ensures computed_first { result.form ≢ form.Computed → result.estimate < computed.estimate }
    ensures read_second { result.form ≡ form.Grown → IfSome read (λ read. result.estimate < read) }
{
    let choice = Choice {
        form: Form::Computed,
        estimate: computed.estimate,
        bytes: computed.bytes,
    };
    let choice = or_cheaper(choice, Form::Read, read);
    or_cheaper(choice, Form::Grown, grown)
}

// The choice, or this form where it is cheaper.
fn or_cheaper(choice: Choice, form: Form, other: Option<u64>) -> Choice
    ensures { IsCheaper choice form other result }
{
    match other {
        Some(estimate) => {
            if estimate < choice.estimate {
                return Choice {
                    form,
                    estimate,
                    bytes: choice.bytes,
                };
            }
            choice
        }
        None => choice,
    }
}
