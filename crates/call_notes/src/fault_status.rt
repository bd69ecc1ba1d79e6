//! The status of each fault of a call below.
ghost use Rattle.std.specs.Prelude.{◌≡◌};

use crate::rule_fault::RuleFault;
use crate::script_fault::ScriptFault;
use crate::status::Status;
use addr_calc::calc_fault::CalcFault;
use dissect_check::check_fault::CheckFault;
use half_glue::glue_fault::GlueFault;
use lazy_walk::path_fault::PathFault;
use list_verify::list_fault::ListFault;
use rule_text::text_fault::TextFault;
use star_walk::star_fault::StarFault;
use std::alloc::AllocError;
use tile_place::coord_limit::CoordLimit;
use tile_shape::address_fault::AddressFault;
use tile_shape::no_memory::NoMemory;
use transducer_core::outside::Outside;
use window_cover::cover_fault::CoverFault;

impl From<AllocError> for Status {
    ghost use Rattle.call_notes.specs.declared.status.Status.TheVariants.{NoMemory};

    ghost from_gives = { λ _ status. status ≡ NoMemory };

    fn from(_error: AllocError) -> Status {
        Status::NoMemory
    }
}

impl From<NoMemory> for Status {
    ghost use Rattle.call_notes.specs.declared.status.Status.TheVariants.{NoMemory};

    ghost from_gives = { λ _ status. status ≡ NoMemory };

    fn from(_error: NoMemory) -> Status {
        Status::NoMemory
    }
}

impl From<TextFault> for Status {
    ghost use Rattle.call_notes.specs.FaultStatus.{status_of_text};

    ghost from_gives = { λ fault status. status ≡ status_of_text fault };

    fn from(fault: TextFault) -> Status {
        match fault {
            TextFault::NoMemory => Status::NoMemory,
            _ => Status::RuleRefused {
                fault: RuleFault::Text(fault),
            },
        }
    }
}

impl From<CheckFault> for Status {
    ghost use Rattle.call_notes.specs.FaultStatus.{status_of_check};

    ghost from_gives = { λ fault status. status ≡ status_of_check fault };

    fn from(fault: CheckFault) -> Status {
        match fault {
            CheckFault::NoMemory => Status::NoMemory,
            _ => Status::RuleRefused {
                fault: RuleFault::Check(fault),
            },
        }
    }
}

impl From<AddressFault> for Status {
    ghost use Rattle.call_notes.specs.declared.status.Status.TheVariants.{BadAddress};

    ghost from_gives = { λ fault status. status ≡ BadAddress fault };

    fn from(fault: AddressFault) -> Status {
        Status::BadAddress { fault }
    }
}

impl From<CoordLimit> for Status {
    ghost use Rattle.call_notes.specs.declared.status.Status.TheVariants.{CoordLimit};

    ghost from_gives = { λ limit status. status ≡ CoordLimit limit.value };

    fn from(limit: CoordLimit) -> Status {
        Status::CoordLimit { value: limit.value }
    }
}

impl From<Outside> for Status {
    ghost use Rattle.call_notes.specs.declared.status.Status.TheVariants.{Outside as OutsideStatus};

    ghost from_gives = { λ outside status. status ≡ OutsideStatus outside.edge outside.part };

    fn from(outside: Outside) -> Status {
        Status::Outside {
            edge: outside.edge,
            part: outside.part,
        }
    }
}

impl From<PathFault> for Status {
    ghost use Rattle.call_notes.specs.FaultStatus.{status_of_path};

    ghost from_gives = { λ fault status. status ≡ status_of_path fault };

    fn from(fault: PathFault) -> Status {
        match fault {
            PathFault::NoEdge { edge, edges } => Status::NoEdge { edge, edges },
            PathFault::DepthLimit(limit) => Status::DepthLimit {
                addr: limit.addr,
                edge: limit.edge,
            },
        }
    }
}

impl From<CoverFault> for Status {
    ghost use Rattle.call_notes.specs.FaultStatus.{status_of_cover};

    ghost from_gives = { λ fault status. status ≡ status_of_cover fault };

    fn from(fault: CoverFault) -> Status {
        match fault {
            CoverFault::DepthLimit { addr, edge } => Status::DepthLimit { addr, edge },
            CoverFault::CoordLimit { value } => Status::CoordLimit { value },
            CoverFault::TooManyTiles => Status::TooManyTiles,
            CoverFault::NoMemory => Status::NoMemory,
        }
    }
}

impl From<GlueFault> for Status {
    ghost use Rattle.call_notes.specs.FaultStatus.{status_of_glue};

    ghost from_gives = { λ fault status. status ≡ status_of_glue fault };

    fn from(fault: GlueFault) -> Status {
        match fault {
            GlueFault::DepthLimit { addr, edge } => Status::DepthLimit { addr, edge },
            GlueFault::CoordLimit { value } => Status::CoordLimit { value },
            GlueFault::NoMemory => Status::NoMemory,
        }
    }
}

impl From<StarFault> for Status {
    ghost use Rattle.call_notes.specs.FaultStatus.{status_of_star};

    ghost from_gives = { λ fault status. status ≡ status_of_star fault };

    fn from(fault: StarFault) -> Status {
        match fault {
            StarFault::DepthLimit { addr, edge } => Status::DepthLimit { addr, edge },
            StarFault::TooBig => Status::StarTooBig,
        }
    }
}

impl From<CalcFault> for Status {
    ghost use Rattle.call_notes.specs.FaultStatus.{status_of_calc};

    ghost from_gives = { λ fault status. status ≡ status_of_calc fault };

    fn from(fault: CalcFault) -> Status {
        match fault {
            CalcFault::NoMemory => Status::NoMemory,
            _ => Status::BadScript {
                fault: ScriptFault::Calc(fault),
            },
        }
    }
}

impl From<ListFault> for Status {
    ghost use Rattle.call_notes.specs.FaultStatus.{status_of_list};

    ghost from_gives = { λ fault status. status ≡ status_of_list fault };

    fn from(fault: ListFault) -> Status {
        match fault {
            ListFault::DepthLimit { addr, edge } => Status::DepthLimit { addr, edge },
            ListFault::CoordLimit { value } => Status::CoordLimit { value },
            ListFault::NoMemory => Status::NoMemory,
            _ => Status::BadListing { fault },
        }
    }
}
