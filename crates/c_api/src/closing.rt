// The answer of `closing` to its whole input, and the closing page.
ghost use Rattle.std.specs.Prelude.{◌≡◌, length};
ghost use Rattle.model.specs.Calls.{respond_answer, respond_output, page_refusal, page_output};

// The text that `closing` prints for the input goes to the front of the output; hands back its
// length, or 0 where the output is too short.
#[unsafe(no_mangle)]
pub extern "C" fn pardesul_respond(input: &[u8], out: &mut [u8]) -> usize
    ensures value { result ≡ respond_answer input.now out.old }
    ensures out_after { out.new ≡ respond_output input.now out.old }
{
    calendar::respond(input, out)
}

// The closing page of a file goes to the front of the lent page.
#[unsafe(no_mangle)]
pub extern "C" fn pardesul_closing_page(
    file: &[u8],
    m: usize,
    method: u64,
    basis: u64,
    page: &mut [u8],
) -> u64
    ensures value { result ≡ page_refusal m file.now method basis (length page.old) }
    ensures page_after { page.new ≡ page_output m file.now method basis page.old }
{
    refusals::refusal_number(page::closing_page(file, m, method, basis, page))
}
