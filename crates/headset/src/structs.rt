// What the Rattle functions answered, as the structs that C reads: in each, what an answer leaves out is 0.
ghost use Rattle.std.specs.Prelude.{◌≡◌};
ghost use Rattle.headset.specs.Shown.{compare_answer, distance_answer, number_of, check_answer};
ghost use Rattle.headset.specs.Shown.{route_answer, room_answer, plan_answer, query_answer};

use crate::{
    CheckAnswer, CompareAnswer, DistanceAnswer, PlanAnswer, QueryAnswer, RoomAnswer, RouteAnswer,
};
use answers::Refusal;
use plan::{Plan, Query};
use rooms::Room;
use route_legs::Way;

// What a call without values answered, as its number.
pub fn number_of(answer: Result<(), Refusal>) -> usize
    ensures { result ≡ number_of answer }
{
    match answer {
        Ok(()) => 0,
        Err(refusal) => refusal.number(),
    }
}

// What comparing answered.
impl From<Result<bool, Refusal>> for CompareAnswer {
    ghost from_gives = { λ a s. s ≡ compare_answer a };

    fn from(answer: Result<bool, Refusal>) -> Self {
        match answer {
            Ok(shorter) => CompareAnswer {
                number: 0,
                shorter: usize::from(shorter),
            },
            Err(refusal) => CompareAnswer {
                number: refusal.number(),
                ..CompareAnswer::default()
            },
        }
    }
}

// What the distance answered.
impl From<Result<u32, Refusal>> for DistanceAnswer {
    ghost from_gives = { λ a s. s ≡ distance_answer a };

    fn from(answer: Result<u32, Refusal>) -> Self {
        match answer {
            Ok(centimetres) => DistanceAnswer {
                number: 0,
                centimetres: centimetres as usize,
            },
            Err(refusal) => DistanceAnswer {
                number: refusal.number(),
                ..DistanceAnswer::default()
            },
        }
    }
}

// What checking answered.
impl From<Result<(), Refusal>> for CheckAnswer {
    ghost from_gives = { λ a s. s ≡ check_answer a };

    fn from(answer: Result<(), Refusal>) -> Self {
        match answer {
            Ok(()) => CheckAnswer::default(),
            Err(refusal) => CheckAnswer {
                number: refusal.number(),
                cell: refusal.place(),
            },
        }
    }
}

// What a call for a route answered.
impl From<Result<Way, Refusal>> for RouteAnswer {
    ghost from_gives = { λ a s. s ≡ route_answer a };

    fn from(answer: Result<Way, Refusal>) -> Self {
        match answer {
            Ok(way) => RouteAnswer {
                straight: way.length.straight as usize,
                diagonal: way.length.diagonal as usize,
                legs: way.legs,
                ..RouteAnswer::default()
            },
            Err(refusal) => RouteAnswer {
                number: refusal.number(),
                place: refusal.place(),
                ..RouteAnswer::default()
            },
        }
    }
}

// What asking for a room answered.
impl From<Result<Room, Refusal>> for RoomAnswer {
    ghost from_gives = { λ a s. s ≡ room_answer a };

    fn from(answer: Result<Room, Refusal>) -> Self {
        match answer {
            Ok(room) => RoomAnswer {
                number: 0,
                left: room.left,
                top: room.top,
                right: room.right,
                bottom: room.bottom,
            },
            Err(refusal) => RoomAnswer {
                number: refusal.number(),
                ..RoomAnswer::default()
            },
        }
    }
}

// What reading a plan answered.
impl From<Result<Plan, Refusal>> for PlanAnswer {
    ghost from_gives = { λ a s. s ≡ plan_answer a };

    fn from(answer: Result<Plan, Refusal>) -> Self {
        match answer {
            Ok(plan) => PlanAnswer {
                width: plan.width,
                height: plan.height,
                size: plan.size,
                map_at: plan.map_at,
                map_length: plan.map_len,
                queries: plan.queries,
                first_query: plan.first_query,
                ..PlanAnswer::default()
            },
            Err(refusal) => PlanAnswer {
                number: refusal.number(),
                offset: refusal.place(),
                ..PlanAnswer::default()
            },
        }
    }
}

// What asking for a query answered.
impl From<Result<Query, Refusal>> for QueryAnswer {
    ghost from_gives = { λ a s. s ≡ query_answer a };

    fn from(answer: Result<Query, Refusal>) -> Self {
        match answer {
            Ok(query) => QueryAnswer {
                number: 0,
                start_column: query.start_col,
                start_row: query.start_row,
                goal_column: query.goal_col,
                goal_row: query.goal_row,
            },
            Err(refusal) => QueryAnswer {
                number: refusal.number(),
                ..QueryAnswer::default()
            },
        }
    }
}
