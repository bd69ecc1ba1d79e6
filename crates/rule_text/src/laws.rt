//! Laws of rule files. A law is a function that does nothing; its contract is the theorem.
ghost use Rattle.std.specs.Prelude.{◌≡◌};
ghost use Rattle.rule_text.specs.declared.reading.TheConstants.{LONGEST_FILE};
ghost use Rattle.rule_text.specs.Limits.{longest_file};

/// States that the longest rule file that the program reads has a mebibyte: 1,048,576 bytes.
pub fn longest_file_law()
    ensures { LONGEST_FILE ≡ longest_file }
{}
