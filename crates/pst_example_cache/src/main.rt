//! How a system of one's own is tested: a campaign on a cache, whose report is printed. With the word `racy` the cache has a race.
#![tactic(auto)]

use pst_tester::*;
use std::process::ExitCode;
use std::sync::{Mutex, Wait};
use std::{env, io, thread};

/// What a cache of the keys 0, 1 and 2 answers.
const MODEL: &str = "(model2 cache (state (map int bool)) (init (map int bool))
  (command (++ (list call (call clear))
               (++ (for ((in k (range 0 3))) (call add k))
                   (for ((in k (range 0 3))) (call has k)))))
  (op add ((k int)) bool (pre true) (next (put s k true)) (post (= r (not (has s k)))))
  (op has ((k int)) bool (pre true) (next s) (post (= r (has s k))))
  (op clear () bool (pre true) (next (map int bool)) (post r)))";

/// The keys that were added, under a lock. A racy cache looks for a key under one lock and adds it under another.
#[derive(Drop)]
struct Cache<R: Wait> {
    rt: R,
    is_racy: bool,
    keys: Mutex<Vec<i64>>,
}

impl<R: Wait + Drop + Send + Sync> System for Cache<R> {
    ghost use Rattle.pst_tester.specs.Promises.{any_value, any_fault, any_reset_fault};

    ghost answers = { any_value };

    ghost fails = { any_fault };

    ghost reset_fails = { any_reset_fault };

    fn reset(&mut self) -> Result<(), CallFault> {
        self.keys.get_mut().clear();
        Ok(())
    }

    fn call(&self, call: &RealCall) -> Result<Value, CallFault> {
        let mut keys = self.keys.lock(&self.rt);
        let answer = match (call.name.as_str(), call.args.as_slice()) {
            ("add", [Value::Int(key)]) => {
                let is_new = !keys.contains(key);
                if self.is_racy {
                    drop(keys);
                    thread::yield_now();
                    keys = self.keys.lock(&self.rt);
                }
                if is_new && keys.push(*key).is_err() {
                    return Err(CallFault::NoMemory);
                }
                is_new
            }
            ("has", [Value::Int(key)]) => keys.contains(key),
            ("clear", []) => {
                keys.clear();
                true
            }
            _ => return Err(CallFault::Refused),
        };
        Ok(Value::Bool(answer))
    }
}

fn main(rt: HostRuntime) -> io::Result<ExitCode> {
    let alloc = rt.alloc();
    let words: Vec<String> = env::args(&rt)?.collect(alloc)?;
    let is_racy = words.iter().any(|word| word.as_str() == "racy");
    let mut caches: Vec<BoxedSystem> = Vec::new(alloc);
    for _ in 0..4 {
        let keys = Mutex::new(Vec::new(alloc));
        caches.push(Box::new(alloc, Cache { rt, is_racy, keys })?)?;
    }
    let (input, settings) = (MODEL.as_bytes(), Settings::default());
    let mut out = Out::new(io::writer(&rt));
    let status = campaign_text(&rt, alloc, input, settings, caches, &Unwatched, &mut out);
    Ok(ExitCode::from(status.code()))
}
