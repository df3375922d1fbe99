// The claim costs.
ghost use Rattle.std.specs.Prelude.{◌≡◌};
ghost use Rattle.model.specs.Calls.{if_accepted, claim_costs_answer};
ghost use Rattle.c_forms.specs.Inflations.{kinds_of, ratios_of};

// The claim costs: f(j) of paid at place j - 1, and of year i's inflation the kind and the ratio at
// place i - 1.
#[unsafe(no_mangle)]
pub extern "C" fn pardesul_claim_costs(
    file: &[u8],
    m: usize,
    line: &mut u64,
    mu: &mut f64,
    factors: &mut [f64; 20],
    kinds: &mut [u8; 20],
    ratios: &mut [f64; 20],
) -> u64
    ensures value { result ≡ (claim_costs_answer m file.now).refusal }
    ensures line_after { line.new ≡ if_accepted result (claim_costs_answer m file.now).line line.old }
    ensures mu_after { mu.new ≡ if_accepted result (claim_costs_answer m file.now).costs.mu mu.old }
    ensures factors_after { factors.new ≡ if_accepted result (claim_costs_answer m file.now).costs.factors factors.old }
    ensures kinds_after { kinds.new ≡ if_accepted result (kinds_of (claim_costs_answer m file.now).costs.inflations) kinds.old }
    ensures ratios_after { ratios.new ≡ if_accepted result (ratios_of (claim_costs_answer m file.now).costs.inflations) ratios.old }
{
    let answer = claim_costs::claim_costs(file, m);
    let refusal = answer.refusal;
    if refusal != 0 {
        return refusal;
    }
    // by a variable: the prover covers no list stored straight from field to field
    let list = answer.costs.factors;
    *factors = list;
    *mu = answer.costs.mu;
    *line = answer.line;
    c_forms::split(answer.costs.inflations, kinds, ratios);
    0
}
