//! The answer to `log`: lines, one after another.
ghost use Rattle.std.specs.Prelude.{◌≡◌, pos, IfOk, OnOk, ◌++◌, ◌∷◌, [], string_bytes};
ghost use Rattle.serde_json.specs.View.{view};
ghost use Rattle.executor_node.specs.Answers.{lines_text, lines_data, content_of};

use api_messages::{ReturnMessage, write_return};
use job_events::ReadLines;
use job_values::{LogLine, NoMemory, Seq};
use serde_json::{Value, json};
use std::alloc::{AllocError, Global};

/// The lines, each followed by LF.
fn content_of(alloc: Global, lines: &[LogLine]) -> Result<String, AllocError>
    ensures { IfOk result (λ s. string_bytes s ≡ content_of lines.now) }
{
    let mut content = String::new(alloc);
    for line in lines {
        content.push_str(line.as_str())?;
        content.push_str("\n")?;
    }
    Ok(content)
}

/// The content of the answer.
fn lines_value(alloc: Global, lines: &ReadLines) -> Result<Value, AllocError>
    ensures { IfOk result (λ v. view v ≡ lines_data lines.now) }
{
    let content = content_of(alloc, lines.lines.as_slice())?;
    json!(in alloc; {
        "fromLineNum": lines.from,
        "isEnd": lines.is_end,
        "logContent": content.as_str(),
        "toLineNum": lines.to,
    })
}

/// The body of the answer.
pub fn lines_body(alloc: Global, lines: &ReadLines) -> Result<Seq<u8>, NoMemory>
    ensures { IfOk result (λ b. b ≡ lines_text lines.now) }
{
    let Ok(content) = lines_value(alloc, lines) else {
        return Err(NoMemory);
    };
    write_return(
        alloc,
        &ReturnMessage {
            code: 200,
            content: Some(content),
            msg: None,
        },
    )
}
