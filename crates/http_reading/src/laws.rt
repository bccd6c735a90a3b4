//! What holds of every list of bytes, every request and every fault.
ghost use Rattle.std.specs.Prelude.{◌≡◌};
ghost use Rattle.job_values.specs.declared.limits.TheConstants.{LONGEST_BODY};
ghost use Rattle.http_reading.specs.declared.plan.TheConstants.{MOST_LINE, MOST_FIELDS};
ghost use Rattle.http_reading.specs.Laws.{OneRequest, NoFault, NoneNoFault, OneFault};

/// Bytes begin with at most one request, and what follows it is told.
pub fn law_one_request()
    ensures { OneRequest }
{}

/// Bytes that begin with a request have no fault, and neither have no bytes.
pub fn law_no_fault()
    ensures request { NoFault }
    ensures none { NoneNoFault }
{}

/// Bytes have one fault at most, but for two heads of which the parser leaves open which they have.
pub fn law_one_fault()
    ensures { OneFault }
{}

/// The numbers that the definitions cite.
pub fn law_numbers()
    ensures body { LONGEST_BODY ≡ 1048576 }
    ensures line { MOST_LINE ≡ 16384 }
    ensures fields { MOST_FIELDS ≡ 64 }
{}
