// The file of a chain, put at the front of a buffer that has room for every file.
#![tactic(auto)]

ghost use Rattle.std.specs.Prelude.{◌≡◌, ◌≤◌, length};
ghost use Rattle.chain.specs.Rows.{rows_of};
ghost use Rattle.chain.specs.Sound.{Accepted};
ghost use Rattle.layout.specs.File.{file_of, longest_file};
ghost use Rattle.decimal.specs.Put.{Puts};

use chain::Chain;
use layout::Form;

// Room for the longest file, which suffices for every program that writes one.
pub fn file_buffer() -> [u8; layout::LONGEST_FILE]
    ensures { length result ≡ longest_file }
{
    [0; layout::LONGEST_FILE]
}

// The file of a chain that every call takes, in a form (internal).
pub fn put_file(out: &mut [u8], form: Form, chain: Chain) -> usize
    requires { (longest_file ≤ length out.old) × Accepted (rows_of chain) }
    ensures { (Puts out.old 0 (file_of form (rows_of chain.entry)) out.new result) × (result ≤ longest_file) }
{
    storage::write(form, chain, out).unwrap()
}
