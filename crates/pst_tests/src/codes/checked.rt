//! Which code is admitted.

use crate::codes::functions::{
    code_that_applies_itself, code_that_gets_last_put_value, code_that_jumps_to_itself,
    code_that_returns_constant_map, code_that_returns_its_argument,
    code_that_returns_keys_after_deletion, code_that_returns_unwritten_register,
    code_that_sums_a_list,
};
use pst_machine::{Code, FunCode, Instr};
use pst_value::Items;
use std::alloc::{AllocError, Global};
use std::test::Fail;

/// Whether the code is refused, and one function with `length` instructions is handed back.
fn is_code_refused_and_handed_back(functions: Items<FunCode>, length: usize) -> bool {
    match Code::check(functions) {
        Ok(_) => false,
        Err(back) => match back.as_slice() {
            [function] => function.body.len() == length,
            _ => false,
        },
    }
}

#[test]
fn a_jump_to_its_own_place_is_refused(rt: HostRuntime) -> Result<(), Fail> {
    assert!(rt; is_code_refused_and_handed_back(code_that_jumps_to_itself(rt.alloc())?, 1));
    Ok(())
}

#[test]
fn a_function_that_applies_itself_is_refused(rt: HostRuntime) -> Result<(), Fail> {
    assert!(rt; is_code_refused_and_handed_back(code_that_applies_itself(rt.alloc())?, 2));
    Ok(())
}

/// How many arguments, registers and instructions the only function has, if the code is valid.
fn sizes_of_only_function_if_valid(functions: Items<FunCode>) -> Option<(u32, u32, usize)> {
    let code = Code::check(functions).ok()?;
    match code.functions() {
        [function] => Some((function.args, function.registers, function.body.len())),
        _ => None,
    }
}

#[test]
fn valid_code_keeps_its_functions(rt: HostRuntime) -> Result<(), Fail> {
    let alloc = rt.alloc();
    let of_sum = sizes_of_only_function_if_valid(code_that_sums_a_list(alloc)?);
    let of_unwritten = sizes_of_only_function_if_valid(code_that_returns_unwritten_register(
        alloc,
    )?);
    let of_identity = sizes_of_only_function_if_valid(code_that_returns_its_argument(alloc)?);
    let is_valid = Code::check(Items::new(alloc)).is_ok();
    assert!(rt; (of_sum, of_unwritten) == (Some((1, 4, 6)), Some((0, 1, 1))));
    assert!(rt; of_identity == Some((1, 1, 1)) && is_valid);
    Ok(())
}

/// Whether the code of the functions has this text.
fn is_valid_code_listed_as(
    alloc: Global,
    functions: Items<FunCode>,
    text: &str,
) -> Result<bool, AllocError> {
    let Ok(code) = Code::check(functions) else {
        return Ok(false);
    };
    Ok(code.listing(alloc)?.as_slice() == text.as_bytes())
}

/// What `code_that_returns_keys_after_deletion` is listed as.
const KEPT_KEYS: &str = "\
0 0 const 0 (map)
0 1 const 1 7
0 2 put 0 0 1 1
0 3 const 2 3
0 4 put 0 0 2 1
0 5 const 3 5
0 6 put 0 0 3 1
0 7 del 0 0 1
0 8 keys 4 0
0 9 ret 4
";

/// What `code_that_gets_last_put_value` is listed as.
const LAST_PUT: &str = "\
0 0 const 0 (map)
0 1 const 1 4
0 2 const 2 9
0 3 put 0 0 1 2
0 4 const 2 8
0 5 put 0 0 1 2
0 6 has 3 0 1
0 7 unless 3 9
0 8 get 3 0 1
0 9 ret 3
";

#[test]
fn map_instructions_are_listed_by_name(rt: HostRuntime) -> Result<(), Fail> {
    let alloc = rt.alloc();
    assert!(rt;
        is_valid_code_listed_as(
            alloc,
            code_that_returns_keys_after_deletion(alloc)?,
            KEPT_KEYS
        )?
    );
    assert!(rt; is_valid_code_listed_as(alloc, code_that_gets_last_put_value(alloc)?, LAST_PUT)?);
    Ok(())
}

#[test]
fn a_constant_map_is_spelled_in_listings(rt: HostRuntime) -> Result<(), Fail> {
    let alloc = rt.alloc();
    let text = "0 0 const 0 (map (\"a\" -1) (\"b\" (list)))\n0 1 ret 0\n";
    assert!(rt; is_valid_code_listed_as(alloc, code_that_returns_constant_map(alloc)?, text)?);
    Ok(())
}
